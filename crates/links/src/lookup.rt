// From a link to its entry, by the chain of its bucket.
ghost use Rattle.std.specs.Prelude.{◌≡◌, ◌≤◌, IfSome};
ghost use Rattle.chains.specs.Walks.{walked};
ghost use Rattle.links.specs.Entries.{sought, looked_up, found};
ghost use Rattle.links.specs.Laws.{Finds};

use crate::layout::{ENTRIES, PAIR};
use crate::pairs::{bucket, is_between, pair};
use memory::Memory;
use order::Link;

// The first entry of a bucket that has a label.
#[inline(always)]
fn seek(memory: &Memory, key: u64, label: u64) -> Option<u64>
    ensures { result ≡ sought label (walked ENTRIES PAIR memory.now key) }
{
    PAIR.walk(memory, key, ENTRIES)
        .find(|pointer| pointer.label == label)
        .map(|pointer| pointer.held)
}

// The entry that the chains have for a link, if it's there. In a garbage memory it may be past the last.
#[tactic(auto, unfolding(crate::specs::Entries::looked_up))]
#[inline(never)]
pub(crate) fn look_up(memory: &Memory, link: Link) -> Option<u64>
    ensures { result ≡ looked_up memory.now link }
{
    if !is_between(link) {
        return None;
    }
    seek(memory, bucket(link), pair(link))
}

// The entry of a link, if it's there; past the last it is cut off.
#[tactic(auto, using(crate::proofs::Promises::finds_so), unfolding(crate::specs::Entries::found))]
#[inline(always)]
pub fn find(memory: &Memory, link: Link) -> Option<u64>
    ensures is { result ≡ found memory.now link }
    ensures below { IfSome result (λ entry. entry ≤ ENTRIES) }
    ensures finds { Finds memory.now link result }
{
    look_up(memory, link).map(|entry| entry.min(ENTRIES))
}
