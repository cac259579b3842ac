// A memory in which all chains go round through all entries.
use crate::bench::Bench;
use crate::dice::Dice;
use crate::plausible::card_of;
use chains::{Cell, ChainTable, Pointer};
use links::{AGE, ENTRIES, IN, LIVE, OUT, PAIR, USED};
use memory::{Column, Memory, PlaceSet};
use order::{CARDS, LINKS, Link};
use row::{CHAIN, COUNT, ENDING, FRESH, HEADS, IDS, SEATS_MOST, TAKEN, put_at};
use search::{FORE, HIND};

// Where the links lead: from any slot to any; or from odd slots to even ones, but for the first and the last MARGIN slots, so that searches from these never
// meet.
#[derive(Clone, Copy)]
pub(crate) enum Ends {
    Any,
    Apart,
}

pub(crate) const MARGIN: u64 = 256;

impl Ends {
    fn any(dice: &mut Dice) -> Ends {
        match dice.below(3) {
            0 => Ends::Any,
            _ => Ends::Apart,
        }
    }

    fn link(self, dice: &mut Dice) -> Link {
        match self {
            Ends::Any => Link {
                from: dice.below(CARDS),
                to: dice.below(CARDS),
            },
            Ends::Apart => Link {
                from: MARGIN.saturating_add(dice.below(CARDS - 2 * MARGIN)) | 1,
                to: MARGIN.saturating_add(dice.below(CARDS - 2 * MARGIN)) & !1,
            },
        }
    }
}

// What the cells say of their holders: the truth, or any place.
#[derive(Clone, Copy)]
pub(crate) enum Backs {
    True,
    Lying,
}

impl Backs {
    fn any(dice: &mut Dice) -> Backs {
        match dice.below(2) {
            0 => Backs::True,
            _ => Backs::Lying,
        }
    }

    fn back(self, table: ChainTable, holder: u64, dice: &mut Dice) -> u64 {
        match self {
            Backs::True => holder,
            Backs::Lying => dice.below(table.cells.size),
        }
    }
}

// The tables, each with the label that a link has there.
#[derive(Clone, Copy)]
enum Labels {
    From,
    To,
    Pair,
}

const TABLES: [(ChainTable, Labels); 4] = [
    (OUT, Labels::To),
    (IN, Labels::From),
    (AGE, Labels::Pair),
    (PAIR, Labels::Pair),
];

impl Labels {
    fn of(self, link: Link) -> u64 {
        match self {
            Labels::From => link.from,
            Labels::To => link.to,
            Labels::Pair => link.from.wrapping_mul(CARDS).wrapping_add(link.to),
        }
    }
}

// Numbers the order from 1 on, as entries are.
fn count_up(order: &mut [u64]) {
    for (i, number) in order.iter_mut().enumerate() {
        *number = (i as u64).wrapping_add(1);
    }
}

// Puts the entries into a random order.
fn shuffle(order: &mut [u64], dice: &mut Dice) {
    count_up(order);
    let n = order.len();
    for i in 0..n {
        let other = dice.below(n as u64) as usize;
        if i < order.len() && other < order.len() {
            order.swap(i, other);
        }
    }
}

// The entries in an order, the links that they hold, and what the cells say of their holders.
#[derive(Clone, Copy)]
struct Lent<'a> {
    order: &'a [u64],
    links: &'a [Link],
    backs: Backs,
}

impl Lent<'_> {
    fn link(self, entry: u64) -> Link {
        let none = Link { from: 0, to: 0 };
        self.links.get(entry as usize).copied().unwrap_or(none)
    }
}

// Lays one circle through a table's entries in their order: each cell holds the next entry.
fn link_up(
    memory: &mut Memory,
    table: ChainTable,
    labels: Labels,
    lent: Lent<'_>,
    dice: &mut Dice,
) {
    let mut before = lent.order.last().copied().unwrap_or(1);
    for entry in lent.order {
        let place = table.node(before);
        let next = Pointer {
            held: *entry,
            label: labels.of(lent.link(*entry)),
        };
        let back = lent.backs.back(table, table.node(before), dice);
        table.put(memory, place, Cell { next, back });
        before = *entry;
    }
}

// Makes the chain of each key begin somewhere on the circle.
fn set_heads(
    memory: &mut Memory,
    table: ChainTable,
    labels: Labels,
    lent: Lent<'_>,
    dice: &mut Dice,
) {
    for key in 0..u64::from(table.heads) {
        let held = dice.below(ENTRIES).wrapping_add(1);
        let label = labels.of(lent.link(held));
        let next = Pointer { held, label };
        table.put(memory, key, Cell { next, back: 0 });
    }
}

// Makes the chains of each table go round, in another random order each.
fn close_chains(bench: &mut Bench, backs: Backs, dice: &mut Dice) {
    for (table, labels) in TABLES {
        shuffle(bench.order.as_mut_slice(), dice);
        let lent = Lent {
            order: bench.order.as_slice(),
            links: bench.links.as_slice(),
            backs,
        };
        let Some(memory) = bench.memory.as_mut_slice().first_chunk_mut() else {
            return;
        };
        link_up(memory, table, labels, lent, dice);
        set_heads(memory, table, labels, lent, dice);
    }
}

// Makes the chains of cards go round through all slots.
fn close_cards(memory: &mut Memory, dice: &mut Dice) {
    for slot in 0..CARDS {
        CHAIN.set(memory, HEADS + slot, slot.wrapping_add(1) % CARDS + 1);
    }
    for bucket in 0..HEADS {
        CHAIN.set(memory, bucket, dice.below(CARDS).wrapping_add(1));
    }
}

// Marks a seat as taken.
fn take(memory: &mut Memory, seat: u64) {
    let word = TAKEN.get(memory, seat / 64);
    TAKEN.set(memory, seat / 64, word | (1 << (seat % 64)));
}

// As many cards as there may be, that of each slot on the seat of the same number, or on the one of twice that.
fn seat_all(memory: &mut Memory, apart: u64) {
    for slot in 0..CARDS {
        let seat = slot.wrapping_mul(apart);
        IDS.set(memory, slot, card_of(slot));
        put_at(memory, seat, slot);
        take(memory, seat);
    }
}

// A full row, and chains that go round; the entries lead where it is said, and `used` of them are in use.
pub(crate) fn go_round(bench: &mut Bench, ends: Ends, backs: Backs, used: u64, dice: &mut Dice) {
    bench.memory.as_mut_slice().fill(0);
    for link in bench.links.iter_mut() {
        *link = ends.link(dice);
    }
    close_chains(bench, backs, dice);
    let Some(memory) = bench.memory.as_mut_slice().first_chunk_mut() else {
        return;
    };
    close_cards(memory, dice);
    let apart = dice.below(2).wrapping_add(1);
    seat_all(memory, apart);
    for (tally, number) in [
        (COUNT, CARDS),
        (ENDING, CARDS.wrapping_mul(apart)),
        (FRESH, CARDS),
        (LIVE, LINKS),
        (USED, used),
    ] {
        tally.set(memory, 0, number);
    }
}

fn mark_all(memory: &mut Memory, column: Column) {
    for i in 0..column.size {
        column.set(memory, i, u64::MAX);
    }
}

// Marks all seats, of each set.
fn mark_sets(memory: &mut Memory, sets: [PlaceSet; 2]) {
    for set in sets {
        mark_all(memory, set.column);
    }
}

// A memory of circles; all seats are marked, or none; the end is where the row's is, or behind all seats.
pub(crate) fn fill(bench: &mut Bench, dice: &mut Dice) {
    let ends = Ends::any(dice);
    let backs = Backs::any(dice);
    let used = if dice.below(2) == 0 {
        ENTRIES
    } else {
        ENTRIES - 512
    };
    go_round(bench, ends, backs, used, dice);
    let Some(memory) = bench.memory.as_mut_slice().first_chunk_mut() else {
        return;
    };
    if dice.below(2) == 0 {
        mark_sets(memory, [FORE, HIND]);
    }
    if dice.below(4) == 0 {
        mark_all(memory, TAKEN);
    }
    if dice.below(4) == 0 {
        ENDING.set(memory, 0, SEATS_MOST.wrapping_add(dice.below(1000)));
    }
}
