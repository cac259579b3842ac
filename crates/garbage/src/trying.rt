// Steps from many memories.
use crate::bench::Bench;
use crate::building::build;
use crate::counting::Counts;
use crate::dice::Dice;
use crate::kind::Kind;
use crate::lengths::Lengths;
use crate::taken::Taken;
use anyhow::{Context, ensure};
use batch::{Event, step};
use std::time::CpuClock;

// How many steps are taken from each memory.
const STEPS: u64 = 4;

// How long a step may take, in milliseconds of the processor: what else runs on the machine doesn't count.
const LIMIT: u128 = 1000;

// A memory: its number, and the seed that it is made from.
#[derive(Clone, Copy)]
struct Case {
    number: u64,
    seed: u64,
    kind: Kind,
    lengths: Lengths,
}

// What is lent, what was answered, and the slowest step.
#[derive(Drop)]
struct Trial {
    bench: Bench,
    counts: Counts,
    slowest: Option<Taken>,
}

impl Trial {
    // Takes a step.
    fn step(&mut self, rt: &HostRuntime, case: Case, event: Event) -> anyhow::Result<Taken> {
        let Lengths { memory, output } = case.lengths;
        let bench = &mut self.bench;
        let memory = bench
            .memory
            .as_mut_slice()
            .get_mut(..memory)
            .context("memory")?;
        let out = bench
            .out
            .as_mut_slice()
            .get_mut(..output)
            .context("output")?;
        let start = rt.thread_cpu_time()?;
        let answer = step(memory, event, bench.batch.as_slice(), out);
        let took = rt.thread_cpu_time()?.saturating_sub(start);
        ensure!(
            memory.len() == case.lengths.memory,
            "the memory has another length"
        );
        Ok(Taken {
            number: case.number,
            seed: case.seed,
            kind: case.kind,
            event,
            links: bench.batch.len(),
            answer,
            took,
        })
    }

    // Notes a step that was taken, and sees that it is as it has to be.
    fn note(&mut self, taken: Taken) -> anyhow::Result<()> {
        self.counts.count(taken);
        if self.slowest.is_none_or(|slowest| slowest.took < taken.took) {
            self.slowest = Some(taken);
        }
        ensure!(taken.fits(), "an answer that doesn't fit: {taken}");
        ensure!(
            taken.took.as_millis() <= LIMIT,
            "a step that takes too long: {taken}"
        );
        Ok(())
    }

    // Takes some steps from a memory.
    fn take_steps(&mut self, rt: &HostRuntime, case: Case, dice: &mut Dice) -> anyhow::Result<()> {
        for _step in 0..STEPS {
            let event = self.bench.draw(case.kind.most_links(), dice)?;
            let taken = self.step(rt, case, event)?;
            self.note(taken)?;
        }
        Ok(())
    }

    // Makes a memory from a seed, and takes some steps from it.
    fn try_memory(&mut self, rt: &HostRuntime, number: u64, seed: u64) -> anyhow::Result<()> {
        let mut dice = Dice::of_seed(seed);
        let kind = Kind::drawn(&mut dice);
        let lengths = Lengths::drawn(kind, &mut dice);
        build(&mut self.bench, kind, &mut dice)?;
        let case = Case {
            number,
            seed,
            kind,
            lengths,
        };
        self.take_steps(rt, case, &mut dice)
    }
}

// Takes steps from so many memories, and prints what was answered.
pub(crate) fn try_all(rt: &HostRuntime, seed: u64, count: u64) -> anyhow::Result<()> {
    let mut trial = Trial {
        bench: Bench::new(rt)?,
        counts: Counts::new(rt.alloc())?,
        slowest: None,
    };
    for number in 0..count {
        trial.try_memory(rt, number, seed.wrapping_add(number))?;
    }
    trial.counts.print(rt)?;
    if let Some(slowest) = trial.slowest {
        eprintln!(rt; "slowest: {slowest}")?;
    }
    Ok(())
}
