// What came of a saying.
use std::alloc::Global;

// A part of the row: the places from one on, and before another.
#[derive(Clone, Copy, Debug, PartialEq, Eq)]
pub(crate) struct Part {
    pub from: u64,
    pub to: u64,
}

// How it was said.
#[derive(Clone, Copy, Debug, PartialEq, Eq)]
pub(crate) enum Course {
    InOneGo,
    StepByStep,
}

// How often something was said out of turn, and how often it was refused as it has to be.
#[derive(Clone, Copy, Debug, Default, PartialEq, Eq)]
pub(crate) struct OutOfTurn {
    pub said: u64,
    pub refused: u64,
}

impl OutOfTurn {
    pub(crate) fn note(&mut self, is_refused: bool) {
        self.said = self.said.saturating_add(1);
        self.refused = self.refused.saturating_add(u64::from(is_refused));
    }
}

// Whether it was done, or the number by which it was refused, or nothing, if it had no end within three steps; the numbers that were shown; if it was said
// step by step, the part of the row that was told; and what was said with nothing pending, and while it was pending.
#[derive(Drop)]
pub(crate) struct Answer {
    pub end: Option<Result<(), u64>>,
    pub shown: Vec<u64>,
    pub course: Course,
    pub told: Option<Part>,
    pub idle: OutOfTurn,
    pub busy: OutOfTurn,
}

impl Answer {
    // Before anything has come.
    pub(crate) fn none(alloc: Global, course: Course) -> Answer {
        Answer {
            end: None,
            shown: Vec::new(alloc),
            course,
            told: None,
            idle: OutOfTurn::default(),
            busy: OutOfTurn::default(),
        }
    }

    // Notes that a part of the row was told; of several parts, from the first place to the last.
    pub(crate) fn note_told(&mut self, part: Part) {
        self.told = Some(match self.told {
            Some(told) => Part {
                from: told.from.min(part.from),
                to: told.to.max(part.to),
            },
            None => part,
        });
    }

    // Whether all that was said out of turn was refused.
    pub(crate) fn keeps_turn(&self) -> bool {
        self.idle.refused == self.idle.said && self.busy.refused == self.busy.said
    }
}
