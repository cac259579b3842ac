// Putting a part of the lent memory into order.
ghost use Rattle.std.specs.Prelude.{◌≡◌};
ghost use Rattle.batch.specs.Sorting.{sorted_part};

use memory::{MEMORY, Memory};

// Puts the numbers from `low` on, below `high`, into their order; nothing where there are no such. Tried by `get_mut(low..high)`: a proof then knows nothing
// of what the memory holds.
pub(crate) fn sort_part(memory: &mut Memory, low: usize, high: usize)
    ensures { memory.new ≡ sorted_part memory.old low high }
{
    if low <= high && high <= MEMORY {
        memory[low..high].sort_unstable();
    }
}
