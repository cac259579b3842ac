// The row is put right for a link that goes backward.
ghost use Rattle.std.specs.Prelude.{◌≡◌, Ok};
ghost use Rattle.keeper.specs.Answers.{Gives, as_told};
ghost use Rattle.keeper.specs.Reordering.{shown_round, moved, reordered};

use crate::event::{Act, Reason, Telling};
use crate::layout::Output;
use crate::pending::Pending;
use crate::telling::tell_part;
use links::insert;
use memory::Memory;
use order::{LINKS, Link, Refusal};
use row::place_at;
use search::{forget, meet, settle, show_and_forget};

// Shows the way by which the link would go round, after the searches met.
#[tactic(auto, using(search::proofs::Joining::shown_is), unfolding(crate::specs::Reordering::round_cards, crate::specs::Reordering::shown_round))]
#[inline(never)]
fn show_round(memory: &mut Memory, slots: Link, joint: Link, out: &mut Output) -> Act
    ensures { Gives (shown_round memory.old slots joint) out.old (Ok result) memory.new out.new }
{
    let n = show_and_forget(memory, slots, joint, out);
    Pending::Round.note(memory);
    Act::Shows(n)
}

// Puts the link in, with the row settled for it, if there's room; tells the part of the row between the two cards' places.
#[tactic(auto, using(crate::proofs::Writing::writing), unfolding(crate::specs::Answers::as_told, crate::specs::Reordering::moved))]
fn move_cards(
    memory: &mut Memory,
    slots: Link,
    telling: Telling,
    out: &mut Output,
) -> Result<Act, Reason>
    ensures { Gives (as_told telling (moved memory.old slots)) out.old result memory.new out.new }
{
    if links::len(memory) >= LINKS {
        forget(memory);
        return Err(Refusal::Full.into());
    }
    let low = place_at(memory, slots.to);
    let high = place_at(memory, slots.from);
    settle(memory);
    insert(memory, slots);
    Ok(tell_part(memory, low, high.saturating_add(1), telling, out))
}

// For a link between slots of which the second stands first: the row is settled for it, or it's refused with the way by which it would go round.
#[tactic(auto, using(crate::proofs::Writing::writing), unfolding(crate::specs::Answers::as_told, crate::specs::Reordering::reordered, crate::specs::Reordering::shown_round))]
#[inline(never)]
pub(crate) fn reorder(
    memory: &mut Memory,
    slots: Link,
    telling: Telling,
    out: &mut Output,
) -> Result<Act, Reason>
    ensures { Gives (as_told telling (reordered memory.old slots)) out.old result memory.new out.new }
{
    if let Some(joint) = meet(memory, slots) {
        return Ok(show_round(memory, slots, joint, out));
    }
    move_cards(memory, slots, telling, out)
}
