// Links are put into the table.
ghost use Rattle.std.specs.Prelude.{◌≡◌, [], ◌∷◌};
ghost use Rattle.memory.specs.Footprints.{Writes};
ghost use Rattle.links.specs.Table.{columns};
ghost use Rattle.links.specs.Entries.{hung, inserted};
ghost use Rattle.links.specs.Laws.{Inserts};

use crate::entries::{len, take_entry};
use crate::layout::{AGE, ALL, IN, LIVE, OUT, PAIR};
use crate::pairs::{bucket, is_between, pair};
use chains::Pointer;
use memory::Memory;
use order::Link;

// Puts an entry, with its link, in front of the chains that the link belongs to.
#[tactic(auto, using(memory::proofs::Footprints::footprints), unfolding(crate::specs::Entries::hung))]
#[inline(always)]
fn hang(memory: &mut Memory, link: Link, held: u64)
    ensures is { memory.new ≡ hung memory.old link held }
    ensures wrote { Writes (OUT.cells ∷ IN.cells ∷ AGE.cells ∷ PAIR.cells ∷ []) memory.old memory.new }
{
    let label = pair(link);
    OUT.push(
        memory,
        link.from,
        Pointer {
            held,
            label: link.to,
        },
    );
    IN.push(
        memory,
        link.to,
        Pointer {
            held,
            label: link.from,
        },
    );
    AGE.push(memory, ALL, Pointer { held, label });
    PAIR.push(memory, bucket(link), Pointer { held, label });
}

// Puts a link between slots into the table, behind all others; nothing if there is no entry left.
#[tactic(auto, using(crate::proofs::Promises::inserting), unfolding(crate::specs::Entries::inserted))]
#[inline(always)]
pub fn insert(memory: &mut Memory, link: Link)
    ensures is { memory.new ≡ inserted memory.old link }
    ensures wrote { Writes columns memory.old memory.new }
    ensures inserts { Inserts memory.old link memory.new }
{
    if !is_between(link) {
        return;
    }
    let Some(entry) = take_entry(memory) else {
        return;
    };
    hang(memory, link, entry);
    let live = len(memory);
    LIVE.set(memory, 0, live.wrapping_add(1));
}
