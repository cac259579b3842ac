// The way by which a link would go round, once a search from both of its ends met.
//
// `VIA` leads from a slot of the one side back to where that search began, and from one of the other side on to where that began. So the first half
// of the way is found from its end, and turned round in place.
ghost use Rattle.std.specs.Prelude.{◌≡◌, ◌≤◌, length, [], ◌∷◌};
ghost use Rattle.memory.specs.Columns.{cell};
ghost use Rattle.memory.specs.Footprints.{Writes};
ghost use Rattle.search.specs.Columns.{sets};
ghost use Rattle.search.specs.Settle.{forgotten};
ghost use Rattle.search.specs.SettleLaws.{Forgets};
ghost use Rattle.search.specs.Way.{trail, way, over, shown, ShownSo};
ghost use Rattle.search.specs.WayLaws.{ShowsWay};

use crate::layout::VIA;
use crate::settling::forget;
use memory::{Column, Memory};
use order::{CARDS, Link};
use row::IDS;

// Writes the cards from that of the slot `first` on, each slot followed by the one that the column `by` has for it, up to that of `last`, to the front of
// `out`, no more than it has room for; says how many.
pub fn show_trail(memory: &Memory, by: Column, first: u64, last: u64, out: &mut [u64]) -> usize
    ensures is { result ≡ length (trail (cell memory.now by) (length out.old) last first) }
    ensures out { out.new ≡ over memory.now (trail (cell memory.now by) (length out.old) last first) result out.old }
    ensures within { result ≤ length out.old }
{
    let mut slot = first;
    for i in 0..out.len() {
        out[i] = IDS.get(memory, slot);
        if slot == last {
            return i + 1;
        }
        slot = by.get(memory, slot);
    }
    out.len()
}

// Writes the cards of the way to the front of `out`, no more than it has room for; says how many.
fn trace(memory: &Memory, link: Link, joint: Link, out: &mut [u64]) -> usize
    ensures is { result ≡ length (way (cell memory.now VIA) (length out.old) link joint) }
    ensures out { out.new ≡ over memory.now (way (cell memory.now VIA) (length out.old) link joint) result out.old }
{
    let back = show_trail(memory, VIA, joint.from, link.to, out);
    out[..back].reverse();
    back + show_trail(memory, VIA, joint.to, link.from, &mut out[back..])
}

// Shows the way from `link.to` on to `link.from` that goes by the link `joint`, where the searches met: the numbers of its cards are written to the
// front of `out`. Says how many, at most CARDS; none, if `out` hasn't room for so many.
fn show(memory: &Memory, link: Link, joint: Link, out: &mut [u64]) -> u64
    ensures { ShownSo (shown memory.now link joint out.old) out.old result out.new }
{
    let room = CARDS as usize;
    if out.len() < room {
        return 0;
    }
    trace(memory, link, joint, &mut out[..room]) as u64
}

// Shows the way as `show` does, and forgets the search that found it.
#[tactic(auto, using(crate::proofs::Showing::shows_so, memory::proofs::Footprints::footprints))]
pub fn show_and_forget(memory: &mut Memory, link: Link, joint: Link, out: &mut [u64]) -> u64
    ensures way { ShownSo (shown memory.old link joint out.old) out.old result out.new }
    ensures after { memory.new ≡ forgotten memory.old }
    ensures law { ShowsWay memory.old link joint out.old result out.new }
    ensures forgets { Forgets memory.old memory.new }
    ensures wrote { Writes sets memory.old memory.new }
{
    let count = show(memory, link, joint, out);
    forget(memory);
    count
}
