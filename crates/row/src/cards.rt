// Cards come, go, and are asked for their places. A card's number is looked up once; from then on the card is a slot.
ghost use Rattle.std.specs.Prelude.{◌≡◌, ◌<◌, [], ◌∷◌};
ghost use Rattle.memory.specs.Footprints.{Writes};
ghost use Rattle.row.specs.Columns.{columns};
ghost use Rattle.row.specs.declared.layout.TheConstants.{FREE, SEATS, TAKEN};
ghost use Rattle.row.specs.Meaning.{count, place_at};
ghost use Rattle.row.specs.Moves.{came, arrived, left, gone, place_found, slot_for};
ghost use Rattle.row.specs.Laws.{Counts, Places, FindsPlace, Comes, Goes};

use crate::layout::COUNT;
use crate::lookup::{enter, find, seek, withdraw};
use crate::marking::unmark;
use crate::ranks::place_of_seat;
use crate::seating::{join, make_room, seat_of, tidy};
use crate::slots::{free_slot, next_slot, take_slot};
use memory::Memory;
use order::{CARDS, Refusal};

// How many cards there are.
#[tactic(auto, using(crate::proofs::Contracts::counts_so))]
#[inline(always)]
pub fn len(memory: &Memory) -> u64
    ensures is { result ≡ count memory.now }
    ensures law { Counts memory.now result }
{
    COUNT.get(memory, 0)
}

// How many cards stand before the card in a slot.
#[tactic(auto, using(crate::proofs::Contracts::places_so))]
pub fn place_at(memory: &Memory, slot: u64) -> u64
    ensures is { result ≡ place_at memory.now slot }
    ensures law { Places memory.now slot result }
{
    place_of_seat(memory, seat_of(memory, slot))
}

// How many cards stand before this one, if it's there.
#[tactic(auto, using(crate::proofs::Contracts::finds_place_so), unfolding(crate::specs::Moves::place_found))]
pub fn place_of(memory: &Memory, card: u64) -> Option<u64>
    ensures is { result ≡ place_found memory.now card }
    ensures law { FindsPlace memory.now card result }
{
    find(memory, card).map(|slot| place_at(memory, slot))
}

// A card takes a slot, and the seat behind all; says the slot.
#[tactic(auto, using(memory::proofs::Footprints::footprints), unfolding(crate::specs::Moves::arrived))]
fn arrive(memory: &mut Memory, count: u64, card: u64) -> u64
    requires { count < CARDS }
    ensures is { result ≡ slot_for memory.old }
    ensures after { memory.new ≡ arrived memory.old count card }
    ensures wrote { Writes columns memory.old memory.new }
{
    let slot = next_slot(memory);
    take_slot(memory, slot);
    enter(memory, slot, card);
    join(memory, slot);
    COUNT.set(memory, 0, count + 1);
    slot
}

// A card comes, at the end of the row; says its slot.
#[tactic(auto, using(crate::proofs::Contracts::comes_so, memory::proofs::Footprints::footprints), unfolding(crate::specs::Moves::came))]
pub fn comes(memory: &mut Memory, card: u64) -> Result<u64, Refusal>
    ensures is { result ≡ (came memory.old card).answer }
    ensures after { memory.new ≡ (came memory.old card).memory }
    ensures wrote { Writes columns memory.old memory.new }
    ensures law { Comes memory.old card result memory.new }
{
    let None = find(memory, card) else {
        return Err(Refusal::Exists);
    };
    let count = len(memory);
    if count >= CARDS {
        return Err(Refusal::Full);
    }
    make_room(memory);
    Ok(arrive(memory, count, card))
}

// A slot gives up its seat, and becomes free.
#[tactic(auto, using(memory::proofs::Footprints::footprints, memory::proofs::Cells::cell_apart), unfolding(crate::specs::Moves::left))]
fn leave(memory: &mut Memory, slot: u64)
    requires { slot < CARDS }
    ensures is { memory.new ≡ left memory.old slot }
    ensures wrote { Writes (COUNT ∷ FREE ∷ SEATS ∷ TAKEN ∷ []) memory.old memory.new }
{
    let count = len(memory);
    let seat = seat_of(memory, slot);
    unmark(memory, seat);
    free_slot(memory, slot);
    COUNT.set(memory, 0, count.saturating_sub(1));
}

// A card goes; the others stay in their order. Says the slot that it had.
#[tactic(auto, using(crate::proofs::Contracts::goes_so, memory::proofs::Footprints::footprints), unfolding(crate::specs::Moves::gone))]
pub fn goes(memory: &mut Memory, card: u64) -> Result<u64, Refusal>
    ensures is { result ≡ (gone memory.old card).answer }
    ensures after { memory.new ≡ (gone memory.old card).memory }
    ensures wrote { Writes columns memory.old memory.new }
    ensures law { Goes memory.old card result memory.new }
{
    let Some(entry) = seek(memory, card) else {
        return Err(Refusal::Missing);
    };
    withdraw(memory, entry);
    leave(memory, entry.number);
    tidy(memory);
    Ok(entry.number)
}
