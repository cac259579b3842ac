// A circle of links among the cards that don't come by the rule.
//
// Each card that hasn't come waits for one that hasn't come either. So one step back after the other, as many as there may be cards, leads to a card of
// a circle, and from there on round it. Three columns serve anew: LEAVES has a 1 for each slot that has come, NUMBERS has for a slot one that hasn't come
// and is linked to it, and WAITS has a 1 for each slot for which one is noted. LEAVES and WAITS are sets of slots then: the columns are there already, and
// their counts aren't needed any more. Of several links into a slot the newest is followed: links are met from the newest on, and the first stays noted.
ghost use Rattle.std.specs.Prelude.{◌≡◌};
ghost use Rattle.memory.specs.Columns.{cell};
ghost use Rattle.batch.specs.Circling.{flagged, stays, noted, notes, traced, start, back, RoundSo};

use crate::layout::{LEAVES, NUMBERS, SPARE, WAITS};
use crate::seating::row_len;
use links::{AGE, ALL, ENTRIES};
use memory::Memory;
use order::CARDS;
use row::SLOTS;
use search::show_trail;

// Notes of the first n slots in SPARE that they have come.
#[tactic(auto, using(crate::proofs::LoopSteps::places), unfolding(crate::specs::Circling::flagged))]
fn flag(memory: &mut Memory, n: u64)
    ensures { memory.new ≡ flagged n memory.old 0 }
{
    for i in 0..n {
        let slot = SPARE.get(memory, i);
        LEAVES.set(memory, slot, 1);
    }
}

// Whether the slot hasn't come.
#[tactic(auto, unfolding(crate::specs::Circling::stays))]
fn stays(memory: &Memory, slot: u64) -> bool
    ensures { result ≡ stays memory.now slot }
{
    slot < CARDS && LEAVES.get(memory, slot) == 0
}

// Notes for the slot that a link goes into the one that it comes out of, if that hasn't come and none is noted yet. The link is a pair of slots in one
// number.
#[tactic(auto, unfolding(crate::specs::Circling::noted))]
fn note(memory: &mut Memory, pair: u64)
    ensures { memory.new ≡ noted memory.old pair }
{
    let from = pair / CARDS;
    let into = pair % CARDS;
    if stays(memory, from) && WAITS.get(memory, into) == 0 {
        NUMBERS.set(memory, into, from);
        WAITS.set(memory, into, 1);
    }
}

// Notes for each slot that a link of the table goes into one that such a link comes out of and that hasn't come, if there is one.
#[tactic(auto, using(crate::proofs::LoopSteps::links))]
fn note_all(memory: &mut Memory)
    ensures { memory.new ≡ notes memory.old }
{
    let mut place = ALL;
    for _turn in 0..ENTRIES {
        let Some(link) = AGE.follow(memory, place) else {
            return;
        };
        note(memory, link.label);
        place = AGE.node(link.held);
    }
}

// Notes which slots have come, after n have, and for each slot one that hasn't and is linked to it.
#[tactic(auto, unfolding(crate::specs::Circling::traced))]
fn trace(memory: &mut Memory, n: u64)
    ensures { memory.new ≡ traced memory.old n }
{
    WAITS.blank(memory, CARDS);
    LEAVES.blank(memory, CARDS);
    flag(memory, n);
    note_all(memory);
}

// The first slot in the row that hasn't come. In any sound memory there is one, if not all have come; in another any slot will do.
fn first_left(memory: &Memory) -> u64
    ensures { result ≡ start memory.now }
{
    (0..row_len(memory))
        .map(|place| SLOTS.get(memory, place))
        .find(|slot| stays(memory, *slot))
        .unwrap_or(0)
}

// So many steps back from a slot that one is on a circle.
fn go_back(memory: &Memory, first: u64) -> u64
    ensures { result ≡ back (cell memory.now NUMBERS) CARDS first }
{
    (0..CARDS).fold(first, |slot, _| NUMBERS.get(memory, slot))
}

// Writes the cards of a circle to the front of `out`, each linked to the next, after n slots have come; says how many.
pub(crate) fn show_circle(memory: &mut Memory, n: u64, out: &mut [u64]) -> u64
    ensures { RoundSo (traced memory.old n) out.old result memory.new out.new }
{
    trace(memory, n);
    let last = go_back(memory, first_left(memory));
    let len = show_trail(memory, NUMBERS, NUMBERS.get(memory, last), last, out);
    out[..len].reverse();
    len as u64
}
