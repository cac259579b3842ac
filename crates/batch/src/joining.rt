// Links are tried one after the other, and taken out again.
ghost use Rattle.std.specs.Prelude.{◌≡◌, ◌≤◌, length, IfErr};
ghost use Rattle.batch.specs.Joining.{joined_slots, joined, JoinedSo, tried, TriedSo, dropped, taken_out};

use keeper::{Output, slots_of};
use links::{insert, remove};
use memory::Memory;
use order::Link;
use row::seat_of;
use search::{meet, settle, show_and_forget};

// A link would go round: how many were put in before it, and how many cards at the front of the output are the way.
#[derive(Clone, Copy)]
pub(crate) struct Round {
    pub count: usize,
    pub shown: u64,
}

// Puts a link between slots in, with the row settled for it if it goes backward. If it would go round, the error is how many cards the way has, which
// is written to the front of `out`.
#[tactic(auto, using(search::proofs::Joining::shown_is), unfolding(crate::specs::Joining::joined_slots, keeper::specs::Reordering::round_cards))]
fn join_slots(memory: &mut Memory, slots: Link, out: &mut Output) -> Result<(), u64>
    ensures { JoinedSo (joined_slots memory.old slots) out.old result memory.new out.new }
{
    if seat_of(memory, slots.to) < seat_of(memory, slots.from) {
        if let Some(joint) = meet(memory, slots) {
            return Err(show_and_forget(memory, slots, joint, out));
        }
        settle(memory);
    }
    insert(memory, slots);
    Ok(())
}

// Puts a link between cards in, if both are there, with the row settled for it if it goes backward. If it would go round, the error is how many cards
// the way has, which is written to the front of `out`. A card before itself goes round: it is the way alone.
#[tactic(auto, unfolding(crate::specs::Joining::joined))]
fn join(memory: &mut Memory, link: Link, out: &mut Output) -> Result<(), u64>
    ensures { JoinedSo (joined memory.old link) out.old result memory.new out.new }
{
    let Some(slots) = slots_of(memory, link) else {
        return Ok(());
    };
    if slots.from == slots.to {
        out[0] = link.from;
        return Err(1);
    }
    join_slots(memory, slots, out)
}

// Tries the links one after the other, up to the first that goes round.
#[tactic(auto, using(crate::proofs::Trying::trying))]
pub(crate) fn join_all(memory: &mut Memory, batch: &[Link], out: &mut Output) -> Result<(), Round>
    ensures tried { TriedSo (tried memory.old batch.now 0) out.old result memory.new out.new }
    ensures within { IfErr result (λ round. round.count ≤ length batch.now) }
{
    for (count, link) in batch.iter().enumerate() {
        join(memory, *link, out).map_err(|shown| Round { count, shown })?;
    }
    Ok(())
}

// Takes a link between cards out of the table.
#[tactic(auto, unfolding(crate::specs::Joining::dropped))]
fn drop_link(memory: &mut Memory, link: Link)
    ensures { memory.new ≡ dropped memory.old link }
{
    if let Some(slots) = slots_of(memory, link) {
        let _ = remove(memory, slots);
    }
}

// Takes the links out of the table.
#[tactic(auto, unfolding(crate::specs::Joining::taken_out))]
pub(crate) fn take_out(memory: &mut Memory, batch: &[Link])
    ensures { memory.new ≡ taken_out memory.old batch.now }
{
    for link in batch {
        drop_link(memory, *link);
    }
}
