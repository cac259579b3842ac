// How much there may be of everything: the numbers that README names. What is proved elsewhere speaks of them by their names.
ghost use Rattle.std.specs.Prelude.{◌≡◌};

use crate::layout::BATCH;
use keeper::{MEMORY, OUTPUT, TOLD};
use order::{CARDS, LINKS};

// 8,192 cards, 65,536 links and 256 of them at once; a memory of 524,288 numbers, an output of 8,192, and 4,096 cards told at once.
pub fn limits_stand()
    ensures cards { CARDS ≡ 8192 }
    ensures links { LINKS ≡ 65536 }
    ensures batch { BATCH ≡ 256 }
    ensures memory { MEMORY ≡ 524288 }
    ensures output { OUTPUT ≡ 8192 }
    ensures told { TOLD ≡ 4096 }
{}
