// What the keeper is told, and what it answers.
ghost use Rattle.std.specs.Prelude.{◌≡◌};
ghost use Rattle.keeper.specs.declared.event.Reason.TheVariants.{Board};
ghost use Rattle.keeper.specs.Engine.{reason_number};

use command::Command;
use order::Refusal;

// A command is said, or the keeper is to go on with the last one.
#[derive(Clone, Copy, Debug, PartialEq, Eq)]
pub enum Event {
    Said(Command),
    Next,
}

// Why nothing is done: what was said or lent doesn't fit, there is nothing to go on with, the last command isn't at its end, or the board refuses the
// command.
#[derive(Clone, Copy, Debug, PartialEq, Eq)]
pub enum Reason {
    Unfit,
    Idle,
    Busy,
    Board(Refusal),
}

impl From<Refusal> for Reason {
    ghost from_gives = { λ why reason. reason ≡ Board why };

    fn from(why: Refusal) -> Reason {
        Reason::Board(why)
    }
}

// The number by which a reason is told.
impl From<Reason> for u64 {
    ghost from_gives = { λ reason n. n ≡ reason_number reason };

    fn from(reason: Reason) -> u64 {
        match reason {
            Reason::Unfit => 0,
            Reason::Idle => 1,
            Reason::Busy => 2,
            Reason::Board(refusal) => u64::from(refusal),
        }
    }
}

// Whether the cards that are told are written to the output, or passed over: who plays a command to its end has no use for them.
#[derive(Clone, Copy, Debug, PartialEq, Eq)]
pub enum Telling {
    Written,
    PassedOver,
}

// What the keeper answers, if it doesn't refuse: it tells the row, from a place on so many cards; or it shows so many numbers; or the command is done. The
// numbers stand at the front of the lent output, and so do the cards, unless what is told is passed over.
#[derive(Clone, Copy, Debug, PartialEq, Eq)]
pub enum Act {
    Tells(u64, u64),
    Shows(u64),
    Done,
}
