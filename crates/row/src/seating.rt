// Slots take seats and give them up. Who leaves the row gives up a seat, and nobody moves, until too many seats are free.
ghost use Rattle.std.specs.Prelude.{◌≡◌, [], ◌∷◌};
ghost use Rattle.memory.specs.Columns.{cell};
ghost use Rattle.memory.specs.Footprints.{Writes};
ghost use Rattle.row.specs.declared.layout.TheConstants.{TAKEN};
ghost use Rattle.row.specs.Meaning.{ending};
ghost use Rattle.row.specs.Moves.{put_at, seated_at, moved, drawn, compacted, roomy, tidied, packed, joined};
ghost use Rattle.row.specs.Laws.{Orders, Sits, Putting, Packs};

use crate::layout::{COUNT, ENDING, SEATS, SEATS_MOST, SLOTS, SPARE};
use crate::marking::{is_taken, mark, unmark};
use memory::Memory;

// The seat of a slot that is a card's.
#[tactic(auto, using(crate::proofs::Contracts::orders_so))]
#[inline(always)]
pub fn seat_of(memory: &Memory, slot: u64) -> u64
    ensures is { result ≡ cell memory.now SEATS slot }
    ensures law { Orders memory.now slot result }
{
    SEATS.get(memory, slot)
}

// The slot at a seat that is taken.
#[tactic(auto, using(crate::proofs::Contracts::sits_so))]
#[inline(always)]
pub fn slot_at(memory: &Memory, seat: u64) -> u64
    ensures is { result ≡ cell memory.now SLOTS seat }
    ensures law { Sits memory.now seat result }
{
    SLOTS.get(memory, seat)
}

// The slot is put at a seat, which is taken or not as before.
#[tactic(auto, using(crate::proofs::Contracts::putting_so, memory::proofs::Footprints::footprints))]
#[inline(always)]
pub fn put_at(memory: &mut Memory, seat: u64, slot: u64)
    ensures is { memory.new ≡ put_at memory.old seat slot }
    ensures wrote { Writes (SLOTS ∷ SEATS ∷ []) memory.old memory.new }
    ensures law { Putting memory.old seat slot memory.new }
{
    SLOTS.set(memory, seat, slot);
    SEATS.set(memory, slot, seat);
}

// The seat behind all that are taken.
fn ending(memory: &Memory) -> u64
    ensures { result ≡ ending memory.now }
{
    ENDING.get(memory, 0).min(SEATS_MOST)
}

// The slot takes the seat.
#[tactic(auto, using(memory::proofs::Footprints::footprints), unfolding(crate::specs::Moves::seated_at))]
fn sit(memory: &mut Memory, seat: u64, slot: u64)
    ensures is { memory.new ≡ seated_at memory.old seat slot }
    ensures wrote { Writes (SLOTS ∷ SEATS ∷ TAKEN ∷ []) memory.old memory.new }
{
    put_at(memory, seat, slot);
    mark(memory, seat);
}

// The slot at a seat takes another one in its place.
#[tactic(auto, using(crate::proofs::Turning::slot_unmarked, memory::proofs::Footprints::footprints), unfolding(crate::specs::Moves::moved))]
fn move_to(memory: &mut Memory, seat: u64, to: u64)
    ensures is { memory.new ≡ moved memory.old seat to }
    ensures wrote { Writes (SLOTS ∷ SEATS ∷ TAKEN ∷ []) memory.old memory.new }
{
    let slot = slot_at(memory, seat);
    unmark(memory, seat);
    sit(memory, to, slot);
}

// The same, unless the seat is no other.
#[tactic(auto, using(memory::proofs::Footprints::footprints))]
fn draw(memory: &mut Memory, seat: u64, to: u64)
    ensures is { memory.new ≡ drawn memory.old seat to }
    ensures wrote { Writes (SLOTS ∷ SEATS ∷ TAKEN ∷ []) memory.old memory.new }
{
    if to < seat {
        move_to(memory, seat, to);
    }
}

// All slots take the first seats, in their order.
#[tactic(auto, using(memory::proofs::Footprints::footprints, crate::proofs::Steps::packs), unfolding(crate::specs::Moves::compacted))]
#[inline(never)]
fn compact(memory: &mut Memory)
    ensures is { memory.new ≡ compacted memory.old }
    ensures wrote { Writes (ENDING ∷ SLOTS ∷ SEATS ∷ TAKEN ∷ []) memory.old memory.new }
{
    let mut next = 0;
    for seat in 0..ending(memory) {
        if is_taken(memory, seat) {
            draw(memory, seat, next);
            next += 1;
        }
    }
    ENDING.set(memory, 0, next);
}

// The same, if there is no seat behind all.
#[tactic(auto, using(memory::proofs::Footprints::footprints), unfolding(crate::specs::Moves::roomy))]
pub(crate) fn make_room(memory: &mut Memory)
    ensures is { memory.new ≡ roomy memory.old }
    ensures wrote { Writes (ENDING ∷ SLOTS ∷ SEATS ∷ TAKEN ∷ []) memory.old memory.new }
{
    if ending(memory) >= SEATS_MOST {
        compact(memory);
    }
}

// The same, if too many seats are free among those in use.
#[tactic(auto, using(memory::proofs::Footprints::footprints), unfolding(crate::specs::Moves::tidied))]
pub(crate) fn tidy(memory: &mut Memory)
    ensures is { memory.new ≡ tidied memory.old }
    ensures wrote { Writes (ENDING ∷ SLOTS ∷ SEATS ∷ TAKEN ∷ []) memory.old memory.new }
{
    let count = COUNT.get(memory, 0);
    let gaps = ending(memory).saturating_sub(count);
    if gaps.saturating_sub(SPARE) > count {
        compact(memory);
    }
}

// The same, if any seat is free among those in use: then a slot's seat is its place.
#[tactic(auto, using(crate::proofs::Contracts::packs_so, memory::proofs::Footprints::footprints), unfolding(crate::specs::Moves::packed))]
pub fn pack(memory: &mut Memory)
    ensures is { memory.new ≡ packed memory.old }
    ensures wrote { Writes (ENDING ∷ SLOTS ∷ SEATS ∷ TAKEN ∷ []) memory.old memory.new }
    ensures law { Packs memory.old memory.new }
{
    if ending(memory) != COUNT.get(memory, 0) {
        compact(memory);
    }
}

// The slot takes the seat behind all.
#[tactic(auto, using(memory::proofs::Footprints::footprints), unfolding(crate::specs::Moves::joined))]
pub(crate) fn join(memory: &mut Memory, slot: u64)
    ensures is { memory.new ≡ joined memory.old slot }
    ensures wrote { Writes (ENDING ∷ SLOTS ∷ SEATS ∷ TAKEN ∷ []) memory.old memory.new }
{
    let seat = ending(memory);
    sit(memory, seat, slot);
    ENDING.set(memory, 0, seat + 1);
}
