// Links are made and taken back. Each check hands on its value or leaves with the refusal, by `let .. else`: this is the form of all commands, here and in
// the crates below, so that what is refused can be seen to have changed nothing.
ghost use Rattle.std.specs.Prelude.{◌≡◌, ◌<◌, Ok, IfSome};
ghost use Rattle.keeper.specs.Answers.{Gives, Ends, as_told};
ghost use Rattle.keeper.specs.Linking.{slots_found, unlinked, put_in, shown_itself, linked};

use crate::event::{Act, Reason, Telling};
use crate::layout::Output;
use crate::pending::Pending;
use crate::reordering::reorder;
use links::{insert, remove};
use memory::Memory;
use order::{CARDS, LINKS, Link, Refusal};
use row::{find, seat_of};

// The slots of two cards, if both are there; whatever the memory, both are below 8,192.
#[tactic(auto, unfolding(crate::specs::Linking::slots_found))]
#[inline(always)]
pub fn slots_of(memory: &Memory, link: Link) -> Option<Link>
    ensures is { result ≡ slots_found memory.now link }
    ensures below { IfSome result (λ slots. slots.from < CARDS × slots.to < CARDS) }
{
    Some(Link {
        from: find(memory, link.from)?,
        to: find(memory, link.to)?,
    })
}

// Takes a link between cards back.
#[tactic(auto, unfolding(crate::specs::Linking::unlinked))]
#[inline(never)]
pub(crate) fn unlink(memory: &mut Memory, link: Link) -> Result<Act, Reason>
    ensures { Ends (unlinked memory.old link) result memory.new }
{
    let Some(slots) = slots_of(memory, link) else {
        return Err(Refusal::Missing.into());
    };
    let Ok(_) = remove(memory, slots) else {
        return Err(Refusal::Missing.into());
    };
    Ok(Act::Done)
}

// Puts a link between slots in, if there's room.
#[tactic(auto, unfolding(crate::specs::Linking::put_in))]
#[inline(always)]
fn put_in(memory: &mut Memory, slots: Link) -> Result<Act, Reason>
    ensures { Ends (put_in memory.old slots) result memory.new }
{
    if links::len(memory) >= LINKS {
        return Err(Refusal::Full.into());
    }
    insert(memory, slots);
    Ok(Act::Done)
}

// A card before itself goes round: it is the way alone.
#[inline(never)]
fn show_itself(memory: &mut Memory, card: u64, out: &mut Output) -> Act
    ensures { Gives (shown_itself memory.old card) out.old (Ok result) memory.new out.new }
{
    out[0] = card;
    Pending::Round.note(memory);
    Act::Shows(1)
}

// Makes a link between cards. Which of the two stands first is asked of their seats.
#[tactic(auto, using(crate::proofs::Writing::writing), unfolding(crate::specs::Answers::as_told, crate::specs::Linking::linked))]
#[inline(always)]
pub(crate) fn link(
    memory: &mut Memory,
    link: Link,
    telling: Telling,
    out: &mut Output,
) -> Result<Act, Reason>
    ensures { Gives (as_told telling (linked memory.old link)) out.old result memory.new out.new }
{
    let Some(slots) = slots_of(memory, link) else {
        return Err(Refusal::Missing.into());
    };
    let None = links::find(memory, slots) else {
        return Err(Refusal::Exists.into());
    };
    if slots.from == slots.to {
        return Ok(show_itself(memory, link.from, out));
    }
    if seat_of(memory, slots.to) < seat_of(memory, slots.from) {
        return reorder(memory, slots, telling, out);
    }
    put_in(memory, slots)
}
