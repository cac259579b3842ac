// Slots for cards: those that are free again stand on a stack, in the seats' column.
ghost use Rattle.std.specs.Prelude.{◌≡◌, ◌<◌, [], ◌∷◌};
ghost use Rattle.memory.specs.Footprints.{Writes};
ghost use Rattle.row.specs.Moves.{slot_for, slot_taken, slot_freed};

use crate::layout::{FREE, FRESH, SEATS};
use memory::Memory;
use order::CARDS;

// The slot of a card that comes: the one that became free last, or the first that was never in use.
#[tactic(auto, unfolding(crate::specs::Moves::slot_for))]
pub(crate) fn next_slot(memory: &Memory) -> u64
    ensures is { result ≡ slot_for memory.now }
    ensures below { result < CARDS }
{
    let free = FREE.get(memory, 0);
    let slot = if free == 0 {
        FRESH.get(memory, 0)
    } else {
        free - 1
    };
    slot.min(CARDS - 1)
}

// That slot is taken.
#[tactic(auto, using(memory::proofs::Footprints::footprints), unfolding(crate::specs::Moves::slot_taken))]
pub(crate) fn take_slot(memory: &mut Memory, slot: u64)
    requires { slot < CARDS }
    ensures is { memory.new ≡ slot_taken memory.old slot }
    ensures wrote { Writes (FRESH ∷ FREE ∷ []) memory.old memory.new }
{
    if FREE.get(memory, 0) == 0 {
        FRESH.set(memory, 0, slot + 1);
    } else {
        let below = SEATS.get(memory, slot);
        FREE.set(memory, 0, below);
    }
}

// A slot becomes free.
#[tactic(auto, using(memory::proofs::Footprints::footprints), unfolding(crate::specs::Moves::slot_freed))]
pub(crate) fn free_slot(memory: &mut Memory, slot: u64)
    requires { slot < CARDS }
    ensures is { memory.new ≡ slot_freed memory.old slot }
    ensures wrote { Writes (FREE ∷ SEATS ∷ []) memory.old memory.new }
{
    let below = FREE.get(memory, 0);
    SEATS.set(memory, slot, below);
    FREE.set(memory, 0, slot + 1);
}
