// The row put into the order of the cards' numbers, whatever the links are.
ghost use Rattle.std.specs.Prelude.{◌≡◌};
ghost use Rattle.memory.specs.Footprints.{Writes};
ghost use Rattle.batch.specs.Columns.{arranging};
ghost use Rattle.batch.specs.Arranging.{card_at, slot_at, arranged};

use crate::layout::{NUMBERS, SPARE};
use crate::listing::fill;
use crate::seating::{Span, row_len};
use crate::sorting::sort_part;
use memory::Memory;
use row::{IDS, SLOTS, find, pack};

// The number of the card at a place.
#[tactic(auto, unfolding(crate::specs::Arranging::card_at))]
fn card_at(memory: &Memory, place: u64) -> u64
    ensures { result ≡ card_at memory.now place }
{
    IDS.get(memory, SLOTS.get(memory, place))
}

// The slot of the card whose number stands at `i`. In any sound memory the card is there; in another any slot will do.
#[tactic(auto, unfolding(crate::specs::Arranging::slot_at))]
fn slot_at(memory: &Memory, i: u64) -> u64
    ensures { result ≡ slot_at memory.now i }
{
    find(memory, NUMBERS.get(memory, i)).unwrap_or(0)
}

// Puts the row into the order of the cards' numbers. It is packed first, so that the places in use are the first.
#[tactic(auto, using(crate::proofs::Writing::arranged_wrote), unfolding(crate::specs::Arranging::arranged_by))]
pub(crate) fn arrange(memory: &mut Memory)
    ensures is { memory.new ≡ arranged memory.old }
    ensures wrote { Writes arranging memory.old memory.new }
{
    pack(memory);
    let n = row_len(memory);
    fill(memory, NUMBERS, 0..n, card_at);
    sort_part(memory, NUMBERS.base as usize, (NUMBERS.base + n) as usize);
    fill(memory, SPARE, 0..n, slot_at);
    Span::first(n).reseat(memory);
}
