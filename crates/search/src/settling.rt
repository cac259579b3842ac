// Settling the row after a search that found no way round: the seats of both sets get first the slots of what leads to the one card, in their order, then
// those of what the other one leads to, in their order. All else stays at its seat, and costs nothing.
ghost use Rattle.std.specs.Prelude.{◌≡◌, ◌+◌, ◌≤◌, ◌∷◌, []};
ghost use Rattle.memory.specs.Footprints.{Writes};
ghost use Rattle.row.specs.declared.layout.TheConstants.{SEATS};
ghost use Rattle.search.specs.Columns.{sets};
ghost use Rattle.search.specs.Settle.{sooner, gathers, both_first, both_next, seated, dealt, forgotten, chose, reseated, settled};
ghost use Rattle.search.specs.SettleLaws.{Settles, Forgets};

use crate::layout::{CHOSEN, FORE, HIND};
use memory::{Memory, PlaceSet};
use order::CARDS;
use row::{SLOTS, put_at};

// The smaller of two seats, or the one that is there.
fn sooner(one: Option<u64>, other: Option<u64>) -> Option<u64>
    ensures { result ≡ sooner one other }
{
    match (one, other) {
        (Some(p), Some(q)) => Some(p.min(q)),
        _ => one.or(other),
    }
}

// Writes the slots at the marked seats, upward, to CHOSEN from the index `from` on; says the next free index. There are no more turns than cards,
// whatever the memory holds.
#[tactic(auto, using(crate::proofs::Gathering::steps, memory::proofs::Footprints::footprints), unfolding(crate::specs::Settle::gathers))]
fn gather(memory: &mut Memory, set: PlaceSet, from: u64) -> u64
    requires { from ≤ CARDS }
    ensures is { result ≡ (gathers memory.old set.column from).end }
    ensures below { result ≤ from + CARDS }
    ensures after { memory.new ≡ (gathers memory.old set.column from).memory }
    ensures wrote { Writes (CHOSEN ∷ []) memory.old memory.new }
{
    let mut next = set.first(memory);
    for end in from..from + CARDS {
        let Some(seat) = next else {
            return end;
        };
        let slot = SLOTS.get(memory, seat);
        CHOSEN.set(memory, end, slot);
        next = set.next_up(memory, seat);
    }
    from + CARDS
}

// Writes the slots at the seats of both sets to CHOSEN, in their new order.
#[tactic(auto, using(memory::proofs::Footprints::footprints), unfolding(crate::specs::Settle::chose))]
fn choose(memory: &mut Memory)
    ensures is { memory.new ≡ chose memory.old }
    ensures wrote { Writes (CHOSEN ∷ []) memory.old memory.new }
{
    let end = gather(memory, HIND, 0);
    gather(memory, FORE, end);
}

// The first seat of both sets.
#[tactic(auto, unfolding(crate::specs::Settle::both_first))]
fn first_of_both(memory: &Memory) -> Option<u64>
    ensures { result ≡ both_first memory.now }
{
    sooner(HIND.first(memory), FORE.first(memory))
}

// The first seat of both sets after `seat`.
#[tactic(auto, unfolding(crate::specs::Settle::both_next))]
fn next_of_both(memory: &Memory, seat: u64) -> Option<u64>
    ensures { result ≡ both_next memory.now seat }
{
    sooner(HIND.next_up(memory, seat), FORE.next_up(memory, seat))
}

// Gives the seat to the `i`-th slot of CHOSEN.
#[tactic(auto, using(memory::proofs::Footprints::footprints), unfolding(crate::specs::Settle::seated))]
fn seat_chosen(memory: &mut Memory, seat: u64, i: u64)
    ensures is { memory.new ≡ seated memory.old seat i }
    ensures wrote { Writes (SLOTS ∷ SEATS ∷ []) memory.old memory.new }
{
    let slot = CHOSEN.get(memory, i);
    put_at(memory, seat, slot);
}

// Gives the seats of both sets, upward, to the slots of CHOSEN, in no more turns than there are cards.
#[tactic(auto, using(crate::proofs::Gathering::steps, memory::proofs::Footprints::footprints))]
fn deal(memory: &mut Memory)
    ensures is { memory.new ≡ dealt CARDS memory.old (both_first memory.old) 0 }
    ensures wrote { Writes (SLOTS ∷ SEATS ∷ []) memory.old memory.new }
{
    let mut next = first_of_both(memory);
    for i in 0..CARDS {
        let Some(seat) = next else {
            return;
        };
        seat_chosen(memory, seat, i);
        next = next_of_both(memory, seat);
    }
}

// Takes all marks of both sets away.
#[tactic(auto, using(crate::proofs::SettleFrames::forgets, memory::proofs::Footprints::footprints), unfolding(crate::specs::Settle::forgotten))]
pub fn forget(memory: &mut Memory)
    ensures is { memory.new ≡ forgotten memory.old }
    ensures law { Forgets memory.old memory.new }
    ensures wrote { Writes sets memory.old memory.new }
{
    HIND.wipe(memory);
    FORE.wipe(memory);
}

// Gives the seats of both sets to the slots that sit at the hind ones, and then to those at the fore ones, each in their order.
#[tactic(auto, using(memory::proofs::Footprints::footprints))]
fn reseat(memory: &mut Memory)
    ensures is { memory.new ≡ reseated memory.old }
    ensures wrote { Writes (SLOTS ∷ SEATS ∷ CHOSEN ∷ []) memory.old memory.new }
{
    choose(memory);
    deal(memory);
}

// Settles the row: the seats of both sets get their slots in the new order, and both sets are empty then.
#[tactic(auto, using(crate::proofs::RowSettled::settles, memory::proofs::Footprints::footprints), unfolding(crate::specs::Settle::settled))]
pub fn settle(memory: &mut Memory)
    ensures is { memory.new ≡ settled memory.old }
    ensures law { Settles memory.old memory.new }
    ensures wrote { Writes (SLOTS ∷ SEATS ∷ CHOSEN ∷ sets) memory.old memory.new }
{
    reseat(memory);
    forget(memory);
}
