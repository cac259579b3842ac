// Links are taken out of the table.
ghost use Rattle.std.specs.Prelude.{◌≡◌, ◌≤◌, [], ◌∷◌, Some, IfOk};
ghost use Rattle.memory.specs.Footprints.{Writes};
ghost use Rattle.links.specs.Table.{columns};
ghost use Rattle.links.specs.Entries.{found, removed, dropped, emptied, removed_all};
ghost use Rattle.links.specs.Laws.{Removes, RemovesAll};

use crate::entries::give_back;
use crate::layout::{ENTRIES, IN, OUT};
use crate::lookup::look_up;
use chains::ChainTable;
use memory::Memory;
use order::{CARDS, Link, Refusal};

// Takes a link out of the table; says the entry that it had, as `find` says it.
#[tactic(auto, using(crate::proofs::Promises::removing), unfolding(crate::specs::Entries::removed, crate::specs::Entries::found))]
#[inline(always)]
pub fn remove(memory: &mut Memory, link: Link) -> Result<u64, Refusal>
    ensures is { result ≡ (removed memory.old link).answer }
    ensures after { memory.new ≡ (removed memory.old link).memory }
    ensures had { IfOk result (λ entry. found memory.old link ≡ Some entry) }
    ensures below { IfOk result (λ entry. entry ≤ ENTRIES) }
    ensures wrote { Writes columns memory.old memory.new }
    ensures removes { Removes memory.old link result memory.new }
{
    let Some(entry) = look_up(memory, link) else {
        return Err(Refusal::Missing);
    };
    OUT.unhook(memory, entry);
    IN.unhook(memory, entry);
    give_back(memory, entry);
    Ok(entry.min(ENTRIES))
}

// Gives back all entries of a slot's chain, which is walked along, and takes their links out of the chains across. A garbage memory may go round.
#[tactic(auto, using(crate::proofs::Turns::drops))]
fn drop_along(memory: &mut Memory, along: ChainTable, across: ChainTable, slot: u64)
    ensures { memory.new ≡ dropped ENTRIES along across memory.old slot }
{
    let mut place = slot;
    for _step in 0..ENTRIES {
        let Some(next) = along.follow(memory, place) else {
            return;
        };
        across.unhook(memory, next.held);
        give_back(memory, next.held);
        place = along.node(next.held);
    }
}

// Gives back all entries of a slot's chain, and empties it. Most chains of a card that goes have none.
#[tactic(auto, using(crate::proofs::Turns::emptied_blank), unfolding(crate::specs::Entries::emptied))]
#[inline(always)]
fn empty(memory: &mut Memory, along: ChainTable, across: ChainTable, slot: u64)
    ensures { memory.new ≡ emptied along across memory.old slot }
{
    if along.cells.get(memory, slot) == 0 {
        return;
    }
    drop_along(memory, along, across, slot);
    along.clear(memory, slot);
}

// Takes all links out of a slot and into it out of the table.
#[tactic(auto, using(crate::proofs::Promises::removing_all), unfolding(crate::specs::Entries::removed_all))]
pub fn remove_all(memory: &mut Memory, slot: u64)
    ensures is { memory.new ≡ removed_all memory.old slot }
    ensures wrote { Writes columns memory.old memory.new }
    ensures removes { RemovesAll memory.old slot memory.new }
{
    if slot >= CARDS {
        return;
    }
    empty(memory, OUT, IN, slot);
    empty(memory, IN, OUT, slot);
}
