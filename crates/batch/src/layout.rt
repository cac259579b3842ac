// Where the columns of this crate lie in the lent memory, behind those of `keeper`. There is no heap, and what is lent may hold anything: so columns of
// numbers stand here, by place or by slot, and no lists or maps.
use keeper::MORE_TO;
use memory::{Column, PAD};
use order::CARDS;

// How many links may be said at once.
pub(crate) const BATCH: usize = 256;

// By place: a slot, of the row as it was before several links were tried, or of the row that is made anew.
pub const SPARE: Column = Column {
    base: MORE_TO.base + MORE_TO.size + PAD,
    size: CARDS,
};

// By slot: how many links come into it from cards that haven't come yet.
pub const WAITS: Column = Column {
    base: SPARE.base + SPARE.size + PAD,
    size: CARDS,
};

// By slot: how many links go out of it.
pub const LEAVES: Column = Column {
    base: WAITS.base + WAITS.size + PAD,
    size: CARDS,
};

// The numbers of the cards, in their order.
pub const NUMBERS: Column = Column {
    base: LEAVES.base + LEAVES.size + PAD,
    size: CARDS,
};
