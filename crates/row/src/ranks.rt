// How many seats before one are taken: whole words' bits, and a part of one word's.
ghost use Rattle.std.specs.Prelude.{◌≡◌};
ghost use Rattle.row.specs.Meaning.{rank, taken_from, placed};
ghost use Rattle.row.specs.Laws.{Ranks};

use crate::layout::{COUNT, ENDING, SEATS_MOST, TAKEN};
use memory::Memory;

// How many seats before this one are taken.
#[tactic(auto, using(crate::proofs::Contracts::ranks_so))]
pub fn rank(memory: &Memory, seat: u64) -> u64
    ensures is { result ≡ rank memory.now seat }
    ensures law { Ranks memory.now seat result }
{
    let seat = seat.min(SEATS_MOST);
    let full = seat / 64;
    let below = (1 << (seat % 64)) - 1;
    let part = (TAKEN.get(memory, full) & below).count_ones() as u64;
    let words = &memory[TAKEN.base as usize..(TAKEN.base + full) as usize];
    let mut before = 0;
    for word in words {
        before += word.count_ones() as u64;
    }
    before + part
}

// How many seats from this one on are taken, up to the end of the word in which the row ends.
fn taken_from(memory: &Memory, seat: u64) -> u64
    ensures { result ≡ taken_from memory.now seat }
{
    let end = (ENDING.get(memory, 0).min(SEATS_MOST) + 63) / 64;
    let first = seat / 64;
    if first >= end {
        return 0;
    }
    let part = (TAKEN.get(memory, first) >> (seat % 64)).count_ones() as u64;
    let words = &memory[(TAKEN.base + (first + 1)) as usize..(TAKEN.base + end) as usize];
    let mut behind = 0;
    for word in words {
        behind += word.count_ones() as u64;
    }
    part + behind
}

// How many cards stand before the one on a taken seat: counted from the end of the row that is nearer.
#[tactic(auto, unfolding(crate::specs::Meaning::placed))]
pub(crate) fn place_of_seat(memory: &Memory, seat: u64) -> u64
    ensures { result ≡ placed memory.now seat }
{
    if seat < ENDING.get(memory, 0).min(SEATS_MOST) / 2 {
        return rank(memory, seat);
    }
    COUNT
        .get(memory, 0)
        .saturating_sub(taken_from(memory, seat))
}
