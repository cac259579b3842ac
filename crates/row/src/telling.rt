// From a place to its seat, and what is told of the row.
ghost use Rattle.std.specs.Prelude.{◌≡◌, ◌≤◌, ◌<◌, ◌%◌, ◌+◌, ◌-◌, ◌*◌, ◌/◌, count_ones, length};
ghost use Rattle.row.specs.Meaning.{taken};
ghost use Rattle.row.specs.Laws.{Next, Selects, Tells};
ghost use Rattle.row.specs.Telling.{Between, Coming, NextIn, next_seat, selected, tells, told, told_count};

use crate::cards::len;
use crate::layout::{IDS, SEATS_MOST, SLOTS, TAKEN, WORDS};
use crate::marking::is_taken;
use memory::Memory;
use order::CARDS;

// The first taken seat from this one on, in its word.
fn next_in(memory: &Memory, seat: u64) -> Option<u64>
    ensures { NextIn (taken memory.now) seat result }
{
    let rest = TAKEN.get(memory, seat / 64) >> (seat % 64);
    if rest == 0 {
        return None;
    }
    Some(seat + rest.trailing_zeros() as u64)
}

// The first taken seat from this one on; the number of seats, if there is none.
#[tactic(auto, using(crate::proofs::Firsts::next_is))]
pub fn next(memory: &Memory, seat: u64) -> u64
    ensures is { result ≡ next_seat memory.now seat }
    ensures law { Next (taken memory.now) seat result }
{
    if is_taken(memory, seat) {
        return seat;
    }
    let mut from = seat;
    for word in seat / 64..WORDS {
        if let Some(found) = next_in(memory, from) {
            return found;
        }
        from = (word + 1) * 64;
    }
    SEATS_MOST
}

// The taken seats of its word from a seat on, a bit for each.
#[tactic(auto, using(crate::proofs::Resting::coming_all))]
#[inline(always)]
fn rest_of(memory: &Memory, seat: u64) -> u64
    ensures { Coming memory.now (seat / 64) seat result }
{
    TAKEN.get(memory, seat / 64) >> (seat % 64) << (seat % 64)
}

// One step of the search for a set bit of a word: it is among the `span` bits from `at` on, or the `span` behind these.
fn half(bits: u64, wanted: u64, at: u64, span: u64) -> u64
    requires { at + span < 64 }
    ensures below { result ≤ at + span }
    ensures law { Between bits wanted at (span + span) → Between bits wanted result span }
{
    let below = bits & ((1 << (at + span)) - 1);
    if below.count_ones() as u64 <= wanted {
        at + span
    } else {
        at
    }
}

// The set bit of a word before which so many are set.
fn nth_bit(bits: u64, wanted: u64) -> u64
    ensures below { result < 64 }
    ensures law { wanted < count_ones bits → Between bits wanted result 1 }
{
    let at = half(bits, wanted, 0, 32);
    let at = half(bits, wanted, at, 16);
    let at = half(bits, wanted, at, 8);
    let at = half(bits, wanted, at, 4);
    let at = half(bits, wanted, at, 2);
    half(bits, wanted, at, 1)
}

// The taken seat that has so many taken ones before it; the number of seats, if there is none.
#[tactic(auto, using(crate::proofs::Contracts::selects_so))]
pub fn select(memory: &Memory, place: u64) -> u64
    ensures is { result ≡ selected memory.now place }
    ensures law { Selects memory.now place result }
{
    let mut before = 0;
    for word in 0..WORDS {
        let bits = TAKEN.get(memory, word);
        let ones = bits.count_ones() as u64;
        if place < before + ones {
            return word * 64 + nth_bit(bits, place - before);
        }
        before += ones;
    }
    SEATS_MOST
}

// A seat from which on the cards from a place on sit; for the first place that is the first seat, free or not.
#[tactic(auto, using(crate::proofs::Resting::first_same))]
#[inline(always)]
fn start_at(memory: &Memory, place: u64) -> u64
    ensures { next_seat memory.now result ≡ next_seat memory.now (selected memory.now place) }
{
    if place == 0 {
        return 0;
    }
    select(memory, place)
}

// Tells the cards of a word's seats from `seat` on to `out`, from `at` on and below `n`; says up to where. A seat is found by the lowest bit, which is then
// taken away: so the free ones between aren't looked at, and that it is a seat needn't be tested. `from`, the seat behind the last one told, is read by the
// loop's invariant alone.
#[inline(always)]
fn tell_word(memory: &Memory, seat: u64, at: u64, n: u64, out: &mut [u64]) -> u64
    requires { (at ≤ n) × (n ≤ length out.old) }
    ensures long { length out.new ≡ length out.old }
    ensures within { result ≤ n }
    ensures on { tells (n - at) memory.now seat at out.old ≡ tells (n - result) memory.now ((seat / 64 + 1) * 64) result out.new }
{
    let word = seat / 64;
    let bits = rest_of(memory, seat);
    let more = (bits.count_ones() as u64).min(n - at);
    let mut rest = bits;
    let mut from = seat;
    for i in 0..more {
        let found = word * 64 + rest.trailing_zeros() as u64;
        let slot = memory[(SLOTS.base + found) as usize];
        out[(at + i) as usize] = IDS.get(memory, slot);
        rest &= rest - 1;
        from = found + 1;
    }
    at + more
}

// Tells the cards at the seats from `seat` on, word by word; says how many, which are fewer than `n` if no more are taken.
fn tell_words(memory: &Memory, seat: u64, n: u64, out: &mut [u64]) -> u64
    requires { n ≤ length out.old }
    ensures long { length out.new ≡ length out.old }
    ensures within { result ≤ n }
    ensures on { tells n memory.now seat 0 out.old ≡ tells (n - result) memory.now SEATS_MOST result out.new }
{
    let mut told = 0;
    let mut from = seat;
    for word in seat / 64..WORDS {
        told = tell_word(memory, from, told, n, out);
        if told == n {
            return n;
        }
        from = 64 * (word + 1);
    }
    told
}

// What is told past the last taken seat, from `at` on and below `n`: the same at each place. Only of a garbage memory, which counts more cards than it has
// taken seats, is anything left to be told here.
#[tactic(auto, using(crate::proofs::Steps::tellings))]
fn tell_past(memory: &Memory, at: u64, n: u64, out: &mut [u64])
    requires { (at ≤ n) × (n ≤ length out.old) }
    ensures { out.new ≡ tells (n - at) memory.now SEATS_MOST at out.old }
{
    let none = IDS.get(memory, SLOTS.get(memory, SEATS_MOST));
    for told in at..n {
        out[told as usize] = none;
    }
}

// Tells the cards from `place` on, `n` of them: they are written to the front of `out`. Says how many: `n`, or none if the row or `out` hasn't so many.
#[tactic(auto, using(crate::proofs::Contracts::tells_so, crate::proofs::Steps::tellings), unfolding(crate::specs::Telling::told, crate::specs::Telling::told_count))]
pub fn tell(memory: &Memory, place: u64, n: u64, out: &mut [u64]) -> u64
    ensures is { result ≡ told_count memory.now place n out.old }
    ensures out { out.new ≡ told memory.now place n out.old }
    ensures law { Tells memory.now place n out.old result out.new }
{
    if n == 0 {
        return 0;
    }
    let count = len(memory).min(CARDS);
    if place > count || n > count - place || n > out.len() as u64 {
        return 0;
    }
    let told = tell_words(memory, start_at(memory, place), n, out);
    tell_past(memory, told, n, out);
    n
}
