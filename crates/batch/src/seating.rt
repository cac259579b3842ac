// The row put aside, and seated again by what was put aside. In a packed row a card's seat is its place.
ghost use Rattle.std.specs.Prelude.{◌≡◌, ◌-◌, min, [], ◌∷◌};
ghost use Rattle.memory.specs.Footprints.{Writes};
ghost use Rattle.row.specs.Meaning.{count};
ghost use Rattle.batch.specs.Seating.{saved, reseated};

use crate::layout::SPARE;
use crate::listing::fill;
use memory::Memory;
use order::CARDS;
use row::{SEATS, SLOTS, put_at};

// How many cards the row has; no more than there may be, whatever stands in the memory.
pub(crate) fn row_len(memory: &Memory) -> u64
    ensures { result ≡ min (count memory.now) CARDS }
{
    row::len(memory).min(CARDS)
}

// The places from `low` on, below `high`.
#[derive(Clone, Copy)]
pub(crate) struct Span {
    pub low: u64,
    pub high: u64,
}

impl Span {
    // The first n places.
    pub(crate) fn first(n: u64) -> Span
        ensures { result ≡ record { low = 0; high = n } }
    {
        Span { low: 0, high: n }
    }

    // Puts the slots at the places aside.
    pub(crate) fn save(self, memory: &mut Memory)
        ensures is { memory.new ≡ saved (min self.high CARDS - self.low) memory.old self.low }
        ensures wrote { Writes (SPARE ∷ []) memory.old memory.new }
    {
        fill(
            memory,
            SPARE,
            self.low..self.high.min(CARDS),
            |memory, place| SLOTS.get(memory, place),
        );
    }

    // Gives the places to the slots that were put aside for them.
    #[tactic(auto, using(crate::proofs::LoopSteps::places), unfolding(crate::specs::Seating::reseated))]
    pub(crate) fn reseat(self, memory: &mut Memory)
        ensures is { memory.new ≡ reseated (min self.high CARDS - self.low) memory.old self.low }
        ensures wrote { Writes (SLOTS ∷ SEATS ∷ []) memory.old memory.new }
    {
        for place in self.low..self.high.min(CARDS) {
            let slot = SPARE.get(memory, place);
            put_at(memory, place, slot);
        }
    }
}
