// The row made anew by the rule: again and again the first card comes that no card is linked to which hasn't come yet.
//
// The row is packed first, so that a card's seat is its place. For each slot it is counted how many links come into it from slots that haven't come, and
// the places of those for which there are none are marked, so that the first mark is next. Each link is followed once, when the card that it comes out of
// comes.
ghost use Rattle.std.specs.Prelude.{◌≡◌, ◌≤◌, [], ◌∷◌};
ghost use Rattle.memory.specs.Footprints.{Writes};
ghost use Rattle.batch.specs.Columns.{renewing};
ghost use Rattle.batch.specs.Renewing.{raised, counted, counts, freed, frees, cleared, prepared};
ghost use Rattle.batch.specs.Renewing.{lessened, released, let_go, drawn, drawn_all, renewed};

use crate::layout::{LEAVES, SPARE, WAITS};
use crate::seating::row_len;
use links::{AGE, ALL, ENTRIES, OUT};
use memory::{Column, Memory};
use order::CARDS;
use row::{SEATS, SLOTS, pack};
use search::FORE;

// Nothing is counted.
#[tactic(auto, unfolding(crate::specs::Renewing::cleared))]
fn clear(memory: &mut Memory)
    ensures { memory.new ≡ cleared memory.old }
{
    WAITS.blank(memory, CARDS);
    LEAVES.blank(memory, CARDS);
}

// Counts one more for a slot.
#[tactic(auto, unfolding(crate::specs::Renewing::raised))]
fn raise(memory: &mut Memory, counts: Column, slot: u64)
    ensures { memory.new ≡ raised memory.old counts slot }
{
    let old = counts.get(memory, slot);
    counts.set(memory, slot, old.saturating_add(1));
}

// Counts the link between a pair of slots, at both its ends.
#[tactic(auto, unfolding(crate::specs::Renewing::counted))]
fn count(memory: &mut Memory, pair: u64)
    ensures { memory.new ≡ counted memory.old pair }
{
    raise(memory, WAITS, pair % CARDS);
    raise(memory, LEAVES, pair / CARDS);
}

// Counts all links, the newest first. Each turn writes to the memory, which an iterator over the links would hold lent.
#[tactic(auto, using(crate::proofs::LoopSteps::links))]
fn count_all(memory: &mut Memory)
    ensures { memory.new ≡ counts memory.old }
{
    let mut place = ALL;
    for _turn in 0..ENTRIES {
        let Some(link) = AGE.follow(memory, place) else {
            return;
        };
        count(memory, link.label);
        place = AGE.node(link.held);
    }
}

// Marks the place of a slot, if it waits for none.
#[tactic(auto, unfolding(crate::specs::Renewing::freed))]
fn free(memory: &mut Memory, slot: u64)
    ensures { memory.new ≡ freed memory.old slot }
{
    if WAITS.get(memory, slot) == 0 {
        let place = SEATS.get(memory, slot);
        FORE.add(memory, place);
    }
}

// Marks the places of all slots that wait for none.
#[tactic(auto, using(crate::proofs::LoopSteps::places), unfolding(crate::specs::Renewing::freed_all))]
fn free_all(memory: &mut Memory)
    ensures { memory.new ≡ frees memory.old }
{
    for place in 0..row_len(memory) {
        let slot = SLOTS.get(memory, place);
        free(memory, slot);
    }
}

// Packs the row, counts the links and marks what waits for none.
#[tactic(auto, unfolding(crate::specs::Renewing::prepared))]
fn prepare(memory: &mut Memory)
    ensures { memory.new ≡ prepared memory.old }
{
    pack(memory);
    clear(memory);
    count_all(memory);
    free_all(memory);
}

// The slot waits for one fewer.
#[tactic(auto, unfolding(crate::specs::Renewing::lessened))]
fn lessen(memory: &mut Memory, slot: u64)
    ensures { memory.new ≡ lessened memory.old slot }
{
    let old = WAITS.get(memory, slot);
    WAITS.set(memory, slot, old.saturating_sub(1));
    free(memory, slot);
}

// What each of the links out of a slot goes into waits for one fewer. There are no more turns than links were counted, whatever the memory holds.
#[tactic(auto, using(crate::proofs::LoopSteps::links))]
fn release(memory: &mut Memory, slot: u64, turns: u64)
    ensures { memory.new ≡ released turns memory.old slot }
{
    let mut place = slot;
    for _turn in 0..turns {
        let Some(link) = OUT.follow(memory, place) else {
            return;
        };
        lessen(memory, link.label);
        place = OUT.node(link.held);
    }
}

// The slot has come: the links out of it are followed, each once, since then none is counted any more.
#[tactic(auto, unfolding(crate::specs::Renewing::let_go))]
fn let_go(memory: &mut Memory, slot: u64)
    ensures { memory.new ≡ let_go memory.old slot }
{
    let turns = LEAVES.get(memory, slot);
    LEAVES.set(memory, slot, 0);
    release(memory, slot, turns);
}

// The slot at the place comes, after `i` others.
#[tactic(auto, unfolding(crate::specs::Renewing::drawn))]
fn draw(memory: &mut Memory, place: u64, i: u64)
    ensures { memory.new ≡ drawn memory.old place i }
{
    let slot = SLOTS.get(memory, place);
    FORE.remove(memory, place);
    SPARE.set(memory, i, slot);
    let_go(memory, slot);
}

// Again and again the slot at the first mark comes, and is written to SPARE; says how many come.
#[tactic(auto, using(crate::proofs::LoopSteps::renews), unfolding(crate::specs::Renewing::drawn_all))]
fn draw_all(memory: &mut Memory) -> u64
    ensures is { result ≡ (drawn_all memory.old).came }
    ensures below { result ≤ CARDS }
    ensures after { memory.new ≡ (drawn_all memory.old).memory }
{
    let n = row_len(memory);
    for i in 0..n {
        let Some(place) = FORE.first(memory) else {
            return i;
        };
        draw(memory, place, i);
    }
    n
}

// Makes the row anew by the rule: writes the slots to SPARE in the order in which they come, and says how many come; all, unless links go round. That not
// all come is no failure: how many came is what a circle is shown by.
#[tactic(auto, using(crate::proofs::Writing::renewed_wrote), unfolding(crate::specs::Renewing::renewed))]
pub(crate) fn renew(memory: &mut Memory) -> u64
    ensures is { result ≡ (renewed memory.old).came }
    ensures below { result ≤ CARDS }
    ensures after { memory.new ≡ (renewed memory.old).memory }
    ensures wrote { Writes renewing memory.old memory.new }
{
    prepare(memory);
    draw_all(memory)
}
