// A command, played to its end.
ghost use Rattle.std.specs.Prelude.{◌≡◌};
ghost use Rattle.keeper.specs.Own.{own};
ghost use Rattle.keeper.specs.declared.event.Event.TheVariants.{Next};
ghost use Rattle.keeper.specs.declared.event.Telling.TheVariants.{PassedOver};
ghost use Rattle.keeper.specs.Playing.{stepped, StepsTo, shown_then, ended_by, played_on, played, Went, read_count, row_read};
ghost use Rattle.keeper.specs.PlayLaws.{Plays, Reads, ReadsRow};
ghost use Rattle.keeper.specs.Promise.{Whole};
ghost use Rattle.keeper.specs.Sister.{WholeIn};

use crate::event::{Act, Event, Reason, Telling};
use crate::stepping::step_as;
use command::Command;
use row::{len, tell};

// How a command ended: how many numbers at the front of the output it showed; and that it was done, or why it was refused.
#[derive(Clone, Copy, Debug, PartialEq, Eq)]
pub struct Played {
    pub shown: u64,
    pub outcome: Result<(), Reason>,
}

// How many numbers a command has shown that had shown so many before an answer; none, if that is its end.
fn shown_then(answer: Result<Act, Reason>, shown: u64) -> Option<u64>
    ensures { result ≡ shown_then shown answer }
{
    match answer {
        Ok(Act::Tells(_, _)) => Some(shown),
        Ok(Act::Shows(n)) => Some(n),
        Ok(Act::Done) | Err(_) => None,
    }
}

// How a command ended that had shown so many numbers before its last answer. If that isn't its end, it is refused.
fn end(answer: Result<Act, Reason>, shown: u64) -> Played
    ensures { result ≡ ended_by shown answer }
{
    match answer {
        Ok(Act::Tells(_, _)) => Played {
            shown,
            outcome: Err(Reason::Busy),
        },
        Ok(Act::Shows(n)) => Played {
            shown: n,
            outcome: Err(Reason::Busy),
        },
        Ok(Act::Done) => Played {
            shown,
            outcome: Ok(()),
        },
        Err(reason) => Played {
            shown,
            outcome: Err(reason),
        },
    }
}

// Goes on by one step, and passes over what is told.
#[inline(never)]
fn take_next(memory: &mut [u64], out: &mut [u64]) -> Result<Act, Reason>
    ensures { StepsTo (stepped PassedOver memory.old Next out.old) result memory.new out.new }
{
    step_as(memory, Event::Next, Telling::PassedOver, out)
}

// Goes on from a first answer up to the end of what was said, and passes over what is told. Two more steps are enough, unless the memory isn't a keeper's.
#[tactic(auto, using(crate::proofs::PlayedOn::goes_on))]
#[inline(always)]
pub fn play_on(memory: &mut [u64], first: Result<Act, Reason>, out: &mut [u64]) -> Played
    ensures { Went (played_on 2 memory.old first out.old 0) result memory.new out.new }
{
    let mut answer = first;
    let mut shown = 0;
    for _step in 0..2u8 {
        let Some(so_far) = shown_then(answer, shown) else {
            break;
        };
        shown = so_far;
        answer = take_next(memory, out);
    }
    end(answer, shown)
}

// Says a command, and goes on until it's at its end; what is told is passed over. The steps are those of the engine that meets the promise; what is played is
// then done or refused as the board says.
#[tactic(auto, using(crate::proofs::PlayedRun::playing))]
#[inline(always)]
pub fn play(memory: &mut [u64], command: Command, out: &mut [u64]) -> Played
    ensures went { Went (played memory.old command out.old) result memory.new out.new }
    ensures whole { Whole own }
    ensures firmer { WholeIn 3 own }
    ensures right { Plays }
{
    let first = step_as(memory, Event::Said(command), Telling::PassedOver, out);
    play_on(memory, first, out)
}

// Writes the row, as the memory has it, to the front of `row`, and says how many cards it has; nothing if it finds no room, or if the memory isn't as long as
// it has to be.
#[tactic(auto, unfolding(crate::specs::Playing::row_read, crate::specs::Playing::read_count))]
pub fn read_row(memory: &[u64], row: &mut [u64]) -> u64
    ensures is { result ≡ read_count memory.now row.old }
    ensures row { row.new ≡ row_read memory.now row.old }
    ensures reads { Reads memory.now row.old result row.new }
    ensures right { ReadsRow }
{
    let Some(memory) = memory.as_array() else {
        return 0;
    };
    tell(memory, 0, len(memory), row)
}
