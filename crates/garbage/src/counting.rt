// How often each event was answered how, by kind of memory.
use crate::events;
use crate::kind::Kind;
use crate::taken::Taken;
use keeper::{Act, Reason};
use order::Refusal;
use std::alloc::{AllocError, Global};
use std::{fmt, io};

// How often what was answered.
#[derive(Clone, Copy)]
struct Answers {
    told: u64,
    shown: u64,
    done: u64,
    unfit: u64,
    idle: u64,
    busy: u64,
    missing: u64,
    exists: u64,
    cycle: u64,
    full: u64,
}

impl Answers {
    const NONE: Answers = Answers {
        told: 0,
        shown: 0,
        done: 0,
        unfit: 0,
        idle: 0,
        busy: 0,
        missing: 0,
        exists: 0,
        cycle: 0,
        full: 0,
    };

    fn count(&mut self, answer: Result<Act, Reason>) {
        let times = match answer {
            Ok(Act::Tells(..)) => &mut self.told,
            Ok(Act::Shows(_)) => &mut self.shown,
            Ok(Act::Done) => &mut self.done,
            Err(Reason::Unfit) => &mut self.unfit,
            Err(Reason::Idle) => &mut self.idle,
            Err(Reason::Busy) => &mut self.busy,
            Err(Reason::Board(Refusal::Missing)) => &mut self.missing,
            Err(Reason::Board(Refusal::Exists)) => &mut self.exists,
            Err(Reason::Board(Refusal::Cycle)) => &mut self.cycle,
            Err(Reason::Board(Refusal::Full)) => &mut self.full,
        };
        *times = times.saturating_add(1);
    }
}

impl fmt::Display for Answers {
    fn fmt<W: fmt::Write>(&self, f: &mut fmt::Formatter<W>) -> fmt::Result {
        let Answers {
            told,
            shown,
            done,
            unfit,
            idle,
            busy,
            missing,
            exists,
            cycle,
            full,
        } = *self;
        write!(
            f,
            "{told:>6} {shown:>6} {done:>6} {unfit:>6} {idle:>6} {busy:>6} "
        )?;
        write!(f, "{missing:>6} {exists:>6} {cycle:>6} {full:>6}")
    }
}

const HEAD: &str =
    "memory    event     told  shown   done      0      1      2      3      4      5      7";

// What an event was answered that was said to memories of a kind.
#[derive(Clone, Copy)]
struct Line {
    kind: Kind,
    event: &'static str,
    answers: Answers,
}

// Adds a line for each event to those of other kinds.
fn add_lines(lines: &mut Vec<Line>, kind: Kind) -> Result<(), AllocError> {
    for event in events::NAMES {
        lines.push(Line {
            kind,
            event,
            answers: Answers::NONE,
        })?;
    }
    Ok(())
}

// A line for each kind of memory and event.
#[derive(Drop)]
pub(crate) struct Counts {
    lines: Vec<Line>,
}

impl Counts {
    pub(crate) fn new(alloc: Global) -> Result<Counts, AllocError> {
        let mut lines = Vec::new(alloc);
        for kind in Kind::ALL {
            add_lines(&mut lines, kind)?;
        }
        Ok(Counts { lines })
    }

    pub(crate) fn count(&mut self, taken: Taken) {
        let event = events::name(taken.event);
        for line in self.lines.iter_mut() {
            if line.kind == taken.kind && line.event == event {
                line.answers.count(taken.answer);
            }
        }
    }

    pub(crate) fn print(&self, rt: &impl Print) -> io::Result<()> {
        println!(rt; "{HEAD}")?;
        for line in self.lines.iter() {
            let kind = line.kind.name();
            let event = line.event;
            let answers = line.answers;
            println!(rt; "{kind:<9} {event:<7} {answers}")?;
        }
        Ok(())
    }
}
