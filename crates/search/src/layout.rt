// Where the columns of this crate lie in the lent memory, behind those of `links`.
use links::PAIR;
use memory::{Column, PAD, PlaceSet, SET_WORDS};
use order::CARDS;

// Where the columns begin.
const BASE: u64 = 373000;

const _: () = prove!(PAIR.cells.base + PAIR.cells.size <= BASE);

// By slot: the slot that a search came from.
pub const VIA: Column = Column {
    base: BASE,
    size: CARDS,
};

// The slots that get new seats, in their new order.
pub const CHOSEN: Column = Column {
    base: VIA.base + VIA.size + PAD,
    size: CARDS,
};

// The seats that a search forward has come to.
pub const FORE: PlaceSet = PlaceSet {
    column: Column {
        base: CHOSEN.base + CHOSEN.size + PAD,
        size: SET_WORDS,
    },
};

// The seats that a search backward has come to.
pub const HIND: PlaceSet = PlaceSet {
    column: Column {
        base: FORE.column.base + FORE.column.size + PAD,
        size: SET_WORDS,
    },
};
