// From a card's number to its slot, by hash chains.
ghost use Rattle.std.specs.Prelude.{◌≡◌, ◌<◌, IfSome, [], ◌∷◌};
ghost use Rattle.memory.specs.Footprints.{Writes};
ghost use Rattle.row.specs.Lookup.{spread, bucket, followed, sought, found, entered, withdrawn, EntryBelow};
ghost use Rattle.row.specs.Laws.{Finds};

use crate::layout::{BUCKET, CHAIN, HEADS, IDS};
use memory::Memory;
use order::CARDS;

// A slot, and the pointer of its chain that holds it.
#[derive(Clone, Copy, Debug, PartialEq, Eq)]
pub(crate) struct Entry {
    pub pointer: u64,
    pub number: u64,
}

// A number spread over all that a u64 can be, by multiplication with 2^64 over the golden ratio.
#[inline(always)]
fn spread(key: u64) -> u64
    ensures { result ≡ spread key }
{
    key.wrapping_mul(0x9E37_79B9_7F4A_7C15)
}

// The bucket of a card: the front of its spread number.
#[tactic(auto, unfolding(crate::specs::Lookup::bucket))]
#[inline(always)]
fn bucket_of(card: u64) -> u64
    ensures { result ≡ bucket card }
{
    spread(card) / BUCKET
}

// The slot that a pointer holds; 0 wraps round to none.
#[tactic(auto, unfolding(crate::specs::Lookup::followed))]
#[inline(always)]
fn follow(memory: &Memory, pointer: u64) -> Option<u64>
    ensures is { result ≡ followed memory.now pointer }
    ensures below { IfSome result (λ slot. slot < CARDS) }
{
    let slot = CHAIN.get(memory, pointer).wrapping_sub(1);
    (slot < CARDS).then_some(slot)
}

// The entry of a card. In a garbage memory a chain may go round: no more steps are taken than there are slots.
#[tactic(auto, using(crate::proofs::Steps::seeks))]
#[inline(always)]
pub(crate) fn seek(memory: &Memory, card: u64) -> Option<Entry>
    ensures is { result ≡ sought CARDS memory.now (bucket card) card }
    ensures below { EntryBelow result }
{
    let mut pointer = bucket_of(card);
    for _step in 0..CARDS {
        let number = follow(memory, pointer)?;
        if IDS.get(memory, number) == card {
            return Some(Entry { pointer, number });
        }
        pointer = HEADS + number;
    }
    None
}

// The slot of a card, if it's there.
#[tactic(auto, using(crate::proofs::Contracts::finds_so), unfolding(crate::specs::Lookup::found))]
#[inline(always)]
pub fn find(memory: &Memory, card: u64) -> Option<u64>
    ensures is { result ≡ found memory.now card }
    ensures below { IfSome result (λ slot. slot < CARDS) }
    ensures law { Finds memory.now card result }
{
    seek(memory, card).map(|entry| entry.number)
}

// Gives the slot to a card, first in its chain.
#[tactic(auto, using(memory::proofs::Cells::cell_apart, memory::proofs::Footprints::footprints), unfolding(crate::specs::Lookup::entered))]
pub(crate) fn enter(memory: &mut Memory, slot: u64, card: u64)
    requires { slot < CARDS }
    ensures is { memory.new ≡ entered memory.old slot card }
    ensures wrote { Writes (IDS ∷ CHAIN ∷ []) memory.old memory.new }
{
    let bucket = bucket_of(card);
    let first = CHAIN.get(memory, bucket);
    IDS.set(memory, slot, card);
    CHAIN.set(memory, HEADS + slot, first);
    CHAIN.set(memory, bucket, slot + 1);
}

// Takes an entry out of its chain.
#[tactic(auto, using(memory::proofs::Footprints::footprints), unfolding(crate::specs::Lookup::withdrawn))]
pub(crate) fn withdraw(memory: &mut Memory, entry: Entry)
    requires { entry.number < CARDS }
    ensures is { memory.new ≡ withdrawn memory.old entry }
    ensures wrote { Writes (CHAIN ∷ []) memory.old memory.new }
{
    let next = CHAIN.get(memory, HEADS + entry.number);
    CHAIN.set(memory, entry.pointer, next);
}
