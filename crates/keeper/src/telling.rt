// The row is told, some thousand cards at a time.
ghost use Rattle.std.specs.Prelude.{◌≡◌, Ok};
ghost use Rattle.keeper.specs.Answers.{Gives, as_told};
ghost use Rattle.keeper.specs.Telling.{told_part, left_to_tell};

use crate::event::{Act, Telling};
use crate::layout::{Output, TOLD};
use crate::pending::Pending;
use memory::Memory;
use order::CARDS;
use row::{len, tell};

// Notes what is still to come of a row that is told up to `from`, and is to be told up to `to`.
#[tactic(auto, unfolding(crate::specs::Telling::left_to_tell))]
fn note_rest(memory: &mut Memory, from: u64, to: u64)
    ensures { memory.new ≡ left_to_tell memory.old from to }
{
    let rest = if from < to {
        Pending::More { from, to }
    } else {
        Pending::Done
    };
    rest.note(memory);
}

// Tells the cards from the place `from` on, below `to`, at most TOLD of them, none past the row's end.
pub(crate) fn tell_part(
    memory: &mut Memory,
    from: u64,
    to: u64,
    telling: Telling,
    out: &mut Output,
) -> Act
    ensures { Gives (as_told telling (told_part memory.old from to)) out.old (Ok result) memory.new out.new }
{
    let end = to.min(len(memory)).min(CARDS);
    let first = from.min(end);
    let n = end.saturating_sub(first).min(TOLD);
    match telling {
        Telling::Written => {
            tell(memory, first, n, out);
        }
        Telling::PassedOver => {}
    }
    note_rest(memory, first + n, end);
    Act::Tells(first, n)
}
