// Where the columns of this crate lie in the lent memory.
use memory::{Column, PAD, ROW_BASE};
use order::CARDS;

// How many seats there are: twice as many as there may be cards, so that few of those who leave make the others move.
pub const SEATS_MOST: u64 = 2 * CARDS;

// The seats are marked as taken in words of 64 bits.
pub const WORDS: u64 = SEATS_MOST / 64;

// How many chains of cards there are, and how many spread numbers share one: 2^64 over that.
pub const HEADS: u64 = 2 * CARDS;

pub const BUCKET: u64 = 0x0004_0000_0000_0000;

// How many seats may be free among those in use, beside one for each card.
pub const SPARE: u64 = 64;

// How many cards there are.
pub const COUNT: Column = Column {
    base: ROW_BASE,
    size: 1,
};

// The seat behind all that are taken.
pub const ENDING: Column = Column {
    base: COUNT.base + COUNT.size,
    size: 1,
};

// How many slots were ever in use.
pub const FRESH: Column = Column {
    base: ENDING.base + ENDING.size,
    size: 1,
};

// The slot that became free last, plus one, or 0.
pub const FREE: Column = Column {
    base: FRESH.base + FRESH.size,
    size: 1,
};

// By slot: the number of its card.
pub const IDS: Column = Column {
    base: FREE.base + FREE.size + PAD,
    size: CARDS,
};

// The pointers of the hash chains: first the heads by bucket, then one by slot, to the next of its chain. A pointer is a slot plus one, or 0.
pub const CHAIN: Column = Column {
    base: IDS.base + IDS.size + PAD,
    size: HEADS + CARDS,
};

// By seat: the slot that sits there, if one does.
pub const SLOTS: Column = Column {
    base: CHAIN.base + CHAIN.size + PAD,
    size: SEATS_MOST,
};

// By slot: its seat, or if it is free, the slot that became free before it, plus one, or 0.
pub const SEATS: Column = Column {
    base: SLOTS.base + SLOTS.size + PAD,
    size: CARDS,
};

// A bit for each seat that is taken.
pub const TAKEN: Column = Column {
    base: SEATS.base + SEATS.size + PAD,
    size: WORDS,
};
