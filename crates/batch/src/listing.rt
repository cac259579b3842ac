// A column written number by number.
ghost use Rattle.std.specs.Prelude.{◌≡◌, ◌-◌};
ghost use Rattle.batch.specs.Arranging.{filled};
ghost use Rattle.batch.specs.Listing.{Says};

use memory::{Column, Memory};
use std::ops::Range;

// Writes what `value` says of the memory and a place to the column at that place, for each of the places.
pub(crate) fn fill<F: Fn(&Memory, u64) -> u64>(
    memory: &mut Memory,
    column: Column,
    places: Range<u64>,
    value: F,
)
    requires { F.IsAlwaysCallable value }
    ensures { (v : _) → Says (F.post value) v → memory.new ≡ filled v column (places.end - places.start) memory.old places.start }
{
    for place in places {
        let number = value(memory, place);
        column.set(memory, place, number);
    }
}
