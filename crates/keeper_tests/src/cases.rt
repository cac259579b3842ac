// A command with what is to come of it.
use command::Command;
use order::{Link, Refusal};

// What is said; whether it is to be done, or else why not; the numbers that are to be shown.
#[derive(Clone, Copy)]
pub(crate) struct Case<'a> {
    pub command: Command,
    pub outcome: Result<(), Refusal>,
    pub shown: &'a [u64],
}

pub(crate) fn done(command: Command) -> Case<'static> {
    Case {
        command,
        outcome: Ok(()),
        shown: &[],
    }
}

pub(crate) fn refused(command: Command, refusal: Refusal) -> Case<'static> {
    Case {
        outcome: Err(refusal),
        ..done(command)
    }
}

// The command is to be refused, since it would go round by this way.
pub(crate) fn round<'a>(command: Command, way: &'a [u64]) -> Case<'a> {
    Case {
        shown: way,
        ..refused(command, Refusal::Cycle)
    }
}

// These two only shorten the tests: with the variant as a parameter each use of them would be longer.
pub(crate) fn link(from: u64, to: u64) -> Command {
    Command::Link(Link { from, to })
}

pub(crate) fn unlink(from: u64, to: u64) -> Command {
    Command::Unlink(Link { from, to })
}
