// What may stand in the columns of a sound memory.
use crate::dice::Dice;
use chains::{Cell, ChainTable, Pointer};
use links::{AGE, ENTRIES, IN, OUT, PAIR};
use memory::{Column, Memory};
use order::CARDS;
use row::{CHAIN, IDS, SEATS, SEATS_MOST, SLOTS, TAKEN};
use search::{FORE, HIND};

// The card whose bucket has twice the number of the slot: the buckets are the fronts of the cards' numbers spread by a factor, and this undoes it.
pub(crate) fn card_of(slot: u64) -> u64 {
    (slot << 51).wrapping_mul(0xf1de_83e1_9937_733d)
}

// The numbers of cards; numbers below another; sets of bits; cells of a table of chains, whose labels are below a number.
#[derive(Clone, Copy)]
enum Holds {
    Cards,
    Below(u64),
    Bits,
    Cells { places: u64, labels: u64 },
}

// A cell that holds an entry, or none, and says that any place holds its own.
fn cell(places: u64, labels: u64, dice: &mut Dice) -> Cell {
    Cell {
        next: Pointer {
            held: dice.below(ENTRIES + 1),
            label: dice.below(labels),
        },
        back: dice.below(places),
    }
}

impl Holds {
    fn drawn(self, dice: &mut Dice) -> u64 {
        match self {
            Holds::Cards => card_of(dice.below(CARDS)),
            Holds::Below(n) => dice.below(n),
            Holds::Bits => dice.any() & dice.any(),
            Holds::Cells { places, labels } => u64::from(cell(places, labels, dice)),
        }
    }
}

const COLUMNS: usize = 11;

// A table's column, with the cells that it holds.
fn table(table: ChainTable, labels: u64) -> (Column, Holds) {
    let places = table.cells.size;
    (table.cells, Holds::Cells { places, labels })
}

// The columns that have to be sound, each with what it holds.
fn columns() -> [(Column, Holds); COLUMNS] {
    [
        (IDS, Holds::Cards),
        (CHAIN, Holds::Below(CARDS + 1)),
        (SLOTS, Holds::Below(CARDS)),
        (SEATS, Holds::Below(SEATS_MOST)),
        (TAKEN, Holds::Bits),
        table(OUT, CARDS),
        table(IN, CARDS),
        table(AGE, CARDS * CARDS),
        table(PAIR, CARDS * CARDS),
        (FORE.column, Holds::Bits),
        (HIND.column, Holds::Bits),
    ]
}

fn fill(memory: &mut Memory, column: Column, holds: Holds, dice: &mut Dice) {
    for i in 0..column.size {
        column.set(memory, i, holds.drawn(dice));
    }
}

// Fills each column with numbers that may stand there.
pub(crate) fn fill_all(memory: &mut Memory, dice: &mut Dice) {
    for (column, holds) in columns() {
        fill(memory, column, holds, dice);
    }
}

// Puts a number somewhere into one of the columns, often near its start: one that may stand there, or any.
pub(crate) fn dent(memory: &mut Memory, dice: &mut Dice) {
    let number = dice.below(COLUMNS as u64);
    let Some((column, holds)) = columns().get(number as usize).copied() else {
        return;
    };
    let near = if dice.below(2) == 0 { 256 } else { column.size };
    let i = dice.below(near.min(column.size));
    let value = if dice.below(4) == 0 {
        dice.any()
    } else {
        holds.drawn(dice)
    };
    column.set(memory, i, value);
}
