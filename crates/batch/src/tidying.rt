// The row made anew by the rule, from the order of the cards' numbers on.
ghost use Rattle.std.specs.Prelude.{◌≡◌};
ghost use Rattle.memory.specs.Footprints.{Writes};
ghost use Rattle.batch.specs.Columns.{tidying};
ghost use Rattle.batch.specs.Tidying.{tidied};

use crate::arranging::arrange;
use crate::renewing::renew;
use crate::seating::{Span, row_len};
use memory::Memory;

// Makes the row anew by the rule, from the order of the cards' numbers on, and says whether all cards came: they do unless links go round, which they
// can't in a sound memory. So there is nothing to tell of a failure but that.
#[tactic(auto, using(crate::proofs::Writing::tidied_wrote), unfolding(crate::specs::Tidying::tidied))]
pub(crate) fn tidy(memory: &mut Memory) -> bool
    ensures is { result ≡ (tidied memory.old).all }
    ensures after { memory.new ≡ (tidied memory.old).memory }
    ensures wrote { Writes tidying memory.old memory.new }
{
    arrange(memory);
    let n = renew(memory);
    if n < row_len(memory) {
        return false;
    }
    Span::first(n).reseat(memory);
    true
}
