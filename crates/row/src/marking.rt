// Which seats are taken: a bit for each.
ghost use Rattle.std.specs.Prelude.{◌≡◌, [], ◌∷◌};
ghost use Rattle.memory.specs.Footprints.{Writes};
ghost use Rattle.row.specs.Meaning.{taken};
ghost use Rattle.row.specs.Moves.{marked, unmarked};

use crate::layout::TAKEN;
use memory::Memory;

// Whether the seat is taken.
#[tactic(auto, using(std::proofs::lemmas::Nat::Bits::shr_and_one), unfolding(crate::specs::Meaning::bit_set, crate::specs::Meaning::digit))]
pub(crate) fn is_taken(memory: &Memory, seat: u64) -> bool
    ensures { result ≡ taken memory.now seat }
{
    (TAKEN.get(memory, seat / 64) >> (seat % 64)) & 1 == 1
}

// The seat is taken from now on.
#[tactic(auto, using(std::proofs::lemmas::Nat::one_shl), unfolding(crate::specs::Moves::marked))]
pub(crate) fn mark(memory: &mut Memory, seat: u64)
    ensures is { memory.new ≡ marked memory.old seat }
    ensures wrote { Writes (TAKEN ∷ []) memory.old memory.new }
{
    let word = seat / 64;
    let bits = TAKEN.get(memory, word) | (1 << (seat % 64));
    TAKEN.set(memory, word, bits);
}

// The seat is free from now on.
#[tactic(auto, using(std::proofs::lemmas::Nat::one_shl), unfolding(crate::specs::Moves::unmarked))]
pub(crate) fn unmark(memory: &mut Memory, seat: u64)
    ensures is { memory.new ≡ unmarked memory.old seat }
    ensures wrote { Writes (TAKEN ∷ []) memory.old memory.new }
{
    let word = seat / 64;
    let bits = TAKEN.get(memory, word) & !(1 << (seat % 64));
    TAKEN.set(memory, word, bits);
}
