// Where the columns of this crate lie in the lent memory.
use chains::ChainTable;
use memory::{Column, LINKS_BASE, PAD};
use order::{CARDS, LINKS};

// How many entries the table has: a few more than there may be links, so that links may be counted once they are all there.
pub const ENTRIES: u64 = LINKS + 256;

// How many links there are.
pub const LIVE: Column = Column {
    base: LINKS_BASE,
    size: 1,
};

// How many entries were ever in use: the last of them, since they are taken in turn.
pub const USED: Column = Column {
    base: LIVE.base + LIVE.size,
    size: 1,
};

// By the slot that a link comes out of; the label is the slot that it goes into.
pub const OUT: ChainTable = ChainTable {
    cells: Column {
        base: USED.base + USED.size + PAD,
        size: CARDS + 1 + ENTRIES,
    },
    heads: CARDS as u32,
};

// By the slot that a link goes into; the label is the slot that it comes out of.
pub const IN: ChainTable = ChainTable {
    cells: Column {
        base: OUT.cells.base + OUT.cells.size + PAD,
        size: CARDS + 1 + ENTRIES,
    },
    heads: CARDS as u32,
};

// All links in one chain, and the entries that are free again in another. A link's label is its pair of slots.
pub const AGE: ChainTable = ChainTable {
    cells: Column {
        base: IN.cells.base + IN.cells.size + PAD,
        size: 2 + 1 + ENTRIES,
    },
    heads: 2,
};

// The keys of those two chains.
pub const ALL: u64 = 0;

pub const FREE: u64 = 1;

// How many buckets of pairs there are, and how many spread numbers share one: 2^64 over how many there are.
pub const BUCKETS: u64 = 32768;

pub const BUCKET: u64 = 0x0002_0000_0000_0000;

// By the bucket of a link's pair of slots; the label is the pair.
pub const PAIR: ChainTable = ChainTable {
    cells: Column {
        base: AGE.cells.base + AGE.cells.size + PAD,
        size: BUCKETS + 1 + ENTRIES,
    },
    heads: BUCKETS as u32,
};
