// Entries: how many hold links, and how they are taken and given back.
ghost use Rattle.std.specs.Prelude.{◌≡◌, [], ◌∷◌};
ghost use Rattle.memory.specs.Footprints.{Writes};
ghost use Rattle.links.specs.Entries.{live, free_entry, taken, freed};
ghost use Rattle.links.specs.Laws.{Counts};

use crate::layout::{AGE, ENTRIES, FREE, LIVE, PAIR, USED};
use chains::Pointer;
use memory::Memory;

// How many links there are.
#[tactic(auto, using(crate::proofs::Promises::counted))]
#[inline(always)]
pub fn len(memory: &Memory) -> u64
    ensures is { result ≡ live memory.now }
    ensures counts { Counts memory.now result }
{
    LIVE.get(memory, 0)
}

// Takes an entry for a link: one that is free again, or the one behind those that were ever in use, if there is one left.
#[tactic(auto, using(memory::proofs::Footprints::footprints), unfolding(crate::specs::Entries::free_entry, crate::specs::Entries::taken))]
#[inline(always)]
pub(crate) fn take_entry(memory: &mut Memory) -> Option<u64>
    ensures is { result ≡ free_entry memory.old }
    ensures after { memory.new ≡ taken memory.old }
    ensures wrote { Writes (USED ∷ AGE.cells ∷ []) memory.old memory.new }
{
    if let Some(pointer) = AGE.follow(memory, FREE) {
        AGE.unhook(memory, pointer.held);
        return Some(pointer.held);
    }
    let used = USED.get(memory, 0);
    if used >= ENTRIES {
        return None;
    }
    USED.set(memory, 0, used + 1);
    Some(used + 1)
}

// Takes an entry, whose link is in no slot's chain any more, out of the other chains, and gives it back.
#[tactic(auto, using(memory::proofs::Footprints::footprints), unfolding(crate::specs::Entries::freed))]
#[inline(always)]
pub(crate) fn give_back(memory: &mut Memory, entry: u64)
    ensures is { memory.new ≡ freed memory.old entry }
    ensures wrote { Writes (LIVE ∷ AGE.cells ∷ PAIR.cells ∷ []) memory.old memory.new }
{
    PAIR.unhook(memory, entry);
    AGE.unhook(memory, entry);
    AGE.push(
        memory,
        FREE,
        Pointer {
            held: entry,
            label: 0,
        },
    );
    let live = len(memory);
    LIVE.set(memory, 0, live.saturating_sub(1));
}
