// What stands in the cells of a table of chains, and how it is packed into a number.
ghost use Rattle.std.specs.Prelude.{◌≡◌};
ghost use Rattle.chains.specs.Packing.{encoded, decoded};

// How many entries a pointer can tell apart, 0 among them, and how many labels.
pub const HELD: u64 = 0x2_0000;

pub const LABELS: u64 = 0x400_0000;

// How many pointers there are.
pub const POINTERS: u64 = HELD * LABELS;

// How many cells a table can have: a cell says with the rest of its number which cell holds its entry.
pub const CELLS: u64 = 0x20_0000;

// A pointer: the entry that it holds, or 0, and the label of that entry.
#[derive(Clone, Copy, Debug, PartialEq, Eq)]
pub struct Pointer {
    pub held: u64,
    pub label: u64,
}

// A cell: the pointer to the next entry of the chain, and the place of the cell that holds the entry whose cell this is.
#[derive(Clone, Copy, Debug, PartialEq, Eq)]
pub struct Cell {
    pub next: Pointer,
    pub back: u64,
}

// What is too large is cut off.
impl From<Cell> for u64 {
    ghost from_gives = { λ cell number. number ≡ encoded cell };

    #[tactic(auto, unfolding(crate::specs::Packing::encoded))]
    #[inline(always)]
    fn from(cell: Cell) -> u64 {
        cell.next.held % HELD + cell.next.label % LABELS * HELD + cell.back % CELLS * POINTERS
    }
}

impl From<u64> for Cell {
    ghost from_gives = { λ number cell. cell ≡ decoded number };

    #[tactic(auto, unfolding(crate::specs::Packing::decoded))]
    #[inline(always)]
    fn from(number: u64) -> Cell {
        Cell {
            next: Pointer {
                held: number % HELD,
                label: number / HELD % LABELS,
            },
            back: number / POINTERS % CELLS,
        }
    }
}
