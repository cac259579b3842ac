// Walks along a chain.
ghost use Rattle.std.specs.Prelude.{◌≡◌};
ghost use Rattle.std.specs.Iterator.{YieldsFirst, item_count};
ghost use Rattle.chains.specs.Laws.{Reads};
ghost use Rattle.chains.specs.Walks.{met, walked, walk_left};

use crate::cells::Pointer;
use crate::chain_table::ChainTable;
use memory::Memory;

// What stands in a chain from a place on. In a garbage memory a chain may go round: a walk has only so many steps. A walk holds the memory lent, so a loop
// that writes to it in each turn goes by its own place instead, in counted turns.
#[derive(Clone, Debug, Drop)]
pub struct Walk<'m> {
    memory: &'m Memory,
    table: ChainTable,
    place: u64,
    steps: u64,
}

impl ChainTable {
    // What the cell at a place holds.
    #[inline(always)]
    pub fn follow(self, memory: &Memory, place: u64) -> Option<Pointer>
        ensures { result ≡ met self memory.now place }
    {
        let next = self.at(memory, place).next;
        (next.held != 0).then_some(next)
    }

    // What stands in a chain from a place on; the place of a head is its key. As many steps as there are entries are enough for all of a chain.
    #[tactic(auto, using(crate::proofs::Reading::reads))]
    pub fn walk(self, memory: &Memory, place: u64, steps: u64) -> Walk<'_>
        ensures is { walk_left result ≡ walked steps self memory.now place }
        ensures reads { Reads self memory.now place steps (walk_left result) }
    {
        Walk {
            memory,
            table: self,
            place,
            steps,
        }
    }
}

impl<'m> Iterator for Walk<'m> {
    type Item = Pointer;

    ghost next_gives = { YieldsFirst walk_left };

    ghost remaining = { item_count walk_left };

    #[tactic(auto, using(crate::proofs::Walking::walks))]
    fn next(&mut self) -> Option<Pointer> {
        self.steps = self.steps.checked_sub(1)?;
        let next = self.table.follow(self.memory, self.place)?;
        self.place = self.table.node(next.held);
        Some(next)
    }
}
