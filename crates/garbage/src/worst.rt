// The longest step that is known.
//
// All chains go round through all entries, in a random order, so that each turn of a walk looks into another part of the memory. Each of the links that are
// said at once goes backward over the row; no two searches meet, and each of them makes as many turns as it may.
use crate::bench::Bench;
use crate::circles::{Backs, Ends, MARGIN, go_round};
use crate::dice::Dice;
use crate::plausible::card_of;
use anyhow::Context;
use batch::{Event, step};
use links::ENTRIES;
use memory::MEMORY;
use order::{CARDS, Link};
use std::time::CpuClock;

// Puts into the batch links from each of the last cards to each of the first, as many as may be said at once.
fn put_links(bench: &mut Bench) -> anyhow::Result<()> {
    for k in 0..MARGIN {
        bench.batch.push(Link {
            from: card_of(CARDS - 1 - k),
            to: card_of(k),
        })?;
    }
    Ok(())
}

pub(crate) fn try_worst(rt: &HostRuntime) -> anyhow::Result<()> {
    let mut bench = Bench::new(rt)?;
    put_links(&mut bench)?;
    go_round(
        &mut bench,
        Ends::Apart,
        Backs::True,
        ENTRIES - 512,
        &mut Dice::of_seed(1),
    );
    let memory = bench.memory.as_mut_slice();
    let memory = memory.get_mut(..MEMORY).context("memory")?;
    let out = bench.out.as_mut_slice();
    let start = rt.thread_cpu_time()?;
    let answer = step(memory, Event::Several, bench.batch.as_slice(), out);
    let took = rt.thread_cpu_time()?.saturating_sub(start);
    println!(rt; "{MARGIN} links at once: {answer:?}, {took:?}")?;
    Ok(())
}
