// Tables of labelled chains.
//
// A table is a column of cells: first one by key, the heads, and then one by entry. The entries are numbered from 1, and the cell of entry 0 is a sink,
// written to where there is no next entry, so that nothing branches. A pointer goes with its entry's label, so that a walk reads one cell an entry.
ghost use Rattle.std.specs.Prelude.{◌≡◌, [], ◌∷◌};
ghost use Rattle.chains.specs.Tables.{node, at, put, nexted, backed, pushed, unhooked, cleared};
ghost use Rattle.chains.specs.Laws.{Comes, Goes, GoesOn, Empties};
ghost use Rattle.memory.specs.Footprints.{Writes};

use crate::cells::{Cell, HELD, Pointer};
use memory::{Column, Memory};

#[derive(Clone, Copy, Debug, PartialEq, Eq)]
pub struct ChainTable {
    pub cells: Column,
    pub heads: u32,
}

impl ChainTable {
    // The place of an entry's cell.
    #[tactic(auto, unfolding(crate::specs::Tables::node))]
    #[inline(always)]
    pub fn node(self, entry: u64) -> u64
        ensures { result ≡ node self entry }
    {
        u64::from(self.heads) + entry % HELD
    }

    // The cell at a place.
    #[inline(always)]
    pub fn at(self, memory: &Memory, place: u64) -> Cell
        ensures { result ≡ at self memory.now place }
    {
        Cell::from(self.cells.get(memory, place))
    }

    // Puts a cell at a place.
    #[inline(always)]
    pub fn put(self, memory: &mut Memory, place: u64, cell: Cell)
        ensures is { memory.new ≡ put self memory.old place cell }
        ensures wrote { Writes (self.cells ∷ []) memory.old memory.new }
    {
        self.cells.set(memory, place, u64::from(cell));
    }

    // Changes the pointer of a cell.
    #[inline(always)]
    fn set_next(self, memory: &mut Memory, place: u64, next: Pointer)
        ensures is { memory.new ≡ nexted self memory.old place next }
        ensures wrote { Writes (self.cells ∷ []) memory.old memory.new }
    {
        let back = self.at(memory, place).back;
        self.put(memory, place, Cell { next, back });
    }

    // Changes what a cell says of its holder.
    #[inline(always)]
    fn set_back(self, memory: &mut Memory, place: u64, back: u64)
        ensures is { memory.new ≡ backed self memory.old place back }
        ensures wrote { Writes (self.cells ∷ []) memory.old memory.new }
    {
        let next = self.at(memory, place).next;
        self.put(memory, place, Cell { next, back });
    }

    // Puts an entry, with its label, in front of the chain of a key.
    #[tactic(auto, using(crate::proofs::Meeting::laws), unfolding(crate::specs::Tables::pushed))]
    #[inline(always)]
    pub fn push(self, memory: &mut Memory, key: u64, entry: Pointer)
        ensures is { memory.new ≡ pushed self memory.old key entry }
        ensures comes { Comes self memory.old key entry memory.new }
        ensures wrote { Writes (self.cells ∷ []) memory.old memory.new }
    {
        let own = self.node(entry.held);
        let next = self.at(memory, key).next;
        self.put(memory, own, Cell { next, back: key });
        self.put(
            memory,
            key,
            Cell {
                next: entry,
                back: 0,
            },
        );
        self.set_back(memory, self.node(next.held), own);
    }

    // Takes an entry out of the chain that it is in, wherever it stands.
    #[tactic(auto, using(crate::proofs::Meeting::laws), unfolding(crate::specs::Tables::unhooked))]
    #[inline(always)]
    pub fn unhook(self, memory: &mut Memory, entry: u64)
        ensures is { memory.new ≡ unhooked self memory.old entry }
        ensures goes { Goes self memory.old entry memory.new }
        ensures goes_on { GoesOn self memory.old entry memory.new }
        ensures wrote { Writes (self.cells ∷ []) memory.old memory.new }
    {
        let Cell { next, back } = self.at(memory, self.node(entry));
        self.set_next(memory, back, next);
        self.set_back(memory, self.node(next.held), back);
    }

    // Empties the chain of a key; its entries are in no chain from then on.
    #[tactic(auto, using(crate::proofs::Clearing::clears), unfolding(crate::specs::Tables::cleared))]
    #[inline(always)]
    pub fn clear(self, memory: &mut Memory, key: u64)
        ensures is { memory.new ≡ cleared self memory.old key }
        ensures empties { Empties self memory.old key memory.new }
        ensures wrote { Writes (self.cells ∷ []) memory.old memory.new }
    {
        let next = Pointer { held: 0, label: 0 };
        self.put(memory, key, Cell { next, back: 0 });
    }
}
