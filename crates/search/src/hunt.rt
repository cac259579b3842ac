// The search from both ends in turn: whether links lead from one card to another that stands behind it.
//
// Forward from the first, backward from the second, and only among the seats between them. What a search has come to is marked, and the marks are its queue
// as well: since links lead to the right, all that it has yet to go on from is marked ahead of its cursor.
ghost use Rattle.std.specs.Prelude.{◌≡◌, [], ◌∷◌};
ghost use Rattle.memory.specs.Footprints.{Writes};
ghost use Rattle.search.specs.Columns.{searched};
ghost use Rattle.search.specs.Hunt.{inside, sees, entered, turn, spreading, gone_on, front, idle, hunted, meeting};
ghost use Rattle.search.specs.HuntLaws.{Meets};

use crate::layout::VIA;
use crate::side::Side;
use links::ENTRIES;
use memory::{Memory, PLACES};
use order::{CARDS, Link};
use row::{SEATS, SLOTS};
use std::mem::replace;
use std::ops::ControlFlow;

// The turns of a walk that one search may make in all: as many as there are entries and ends of chains.
const FUEL: u64 = ENTRIES + CARDS;

// How often both searches together may go on from a card: each goes on from a seat at most once, and this is as many seats as there are for both. A
// garbage memory may go round.
const TURNS: u64 = 2 * PLACES;

// The seats from `low` to `high`, both in it.
#[derive(Clone, Copy)]
pub(crate) struct Part {
    pub low: u64,
    pub high: u64,
}

impl Part {
    #[inline(always)]
    fn has(self, seat: u64) -> bool
        ensures { result ≡ inside self seat }
    {
        self.low <= seat && seat <= self.high
    }
}

// One of the searches, among the seats of a part.
#[derive(Clone, Copy)]
struct Search {
    side: Side,
    part: Part,
}

impl Search {
    // Comes from one slot to another, unless that sits outside the part or the other search has come to it; says whether this has.
    #[tactic(auto, using(crate::proofs::Touching::entered_wrote), unfolding(crate::specs::Hunt::sees, crate::specs::Hunt::entered, memory::specs::PlaceSets::added))]
    #[inline(always)]
    fn enter(self, memory: &mut Memory, from: u64, to: u64) -> bool
        ensures is { result ≡ sees memory.old self.side self.part to }
        ensures after { memory.new ≡ entered memory.old self.side self.part from to }
        ensures wrote { Writes searched memory.old memory.new }
    {
        let seat = SEATS.get(memory, to);
        if !self.part.has(seat) {
            return false;
        }
        if self.side.other().marks().has(memory, seat) {
            return true;
        }
        if self.side.marks().add(memory, seat) {
            VIA.set(memory, to, from);
        }
        false
    }

    // One turn of a walk through the chain of a slot. It ends with the slot at which the other search was met, or with none at the end of the chain; else
    // it tells the place at which the walk goes on.
    #[tactic(auto, using(memory::proofs::Footprints::footprints), unfolding(crate::specs::Hunt::turn))]
    #[inline(always)]
    fn take_turn(self, memory: &mut Memory, slot: u64, place: u64) -> ControlFlow<Option<u64>, u64>
        ensures is { result ≡ (turn memory.old self.side self.part slot place).told }
        ensures after { memory.new ≡ (turn memory.old self.side self.part slot place).memory }
        ensures wrote { Writes searched memory.old memory.new }
    {
        let table = self.side.table();
        let Some(pointer) = table.follow(memory, place) else {
            return ControlFlow::Break(None);
        };
        if self.enter(memory, slot, pointer.label) {
            return ControlFlow::Break(Some(pointer.label));
        }
        ControlFlow::Continue(table.node(pointer.held))
    }

    // Comes to all that a slot is linked to, and tells what is left of the fuel; it ends with the slot at which the other search is met, if it is. A garbage
    // memory may go round, so the fuel counts the turns.
    #[tactic(auto, using(memory::proofs::Fuel::one_less, memory::proofs::Footprints::footprints), unfolding(crate::specs::Hunt::spreading))]
    fn spread_from(self, memory: &mut Memory, slot: u64, fuel: u64) -> ControlFlow<u64, u64>
        ensures is { result ≡ (spreading fuel memory.old self.side self.part slot slot).spread }
        ensures after { memory.new ≡ (spreading fuel memory.old self.side self.part slot slot).memory }
        ensures wrote { Writes searched memory.old memory.new }
    {
        let mut place = slot;
        for i in 0..fuel {
            match self.take_turn(memory, slot, place) {
                ControlFlow::Break(None) => return ControlFlow::Continue(fuel - (i + 1)),
                ControlFlow::Break(Some(far)) => return ControlFlow::Break(far),
                ControlFlow::Continue(next) => place = next,
            }
        }
        ControlFlow::Continue(0)
    }
}

// Where one of the searches stands: the seat that it goes on from, if there is one, and what is left of its fuel.
#[derive(Clone, Copy)]
pub(crate) struct Front {
    pub side: Side,
    pub cursor: Option<u64>,
    pub fuel: u64,
}

impl Front {
    // A search at its start, from a seat.
    fn starting(side: Side, seat: u64) -> Front
        ensures { result ≡ front side seat }
    {
        Front {
            side,
            cursor: Some(seat),
            fuel: FUEL,
        }
    }

    // It has nothing to go on from.
    fn is_idle(self) -> bool
        ensures { result ≡ idle self }
    {
        self.cursor.is_none()
    }

    // Goes on from the card at the cursor, if there is one, and tells where the search stands then; it ends with the link at which it met the other.
    #[tactic(auto, using(memory::proofs::Footprints::footprints), unfolding(crate::specs::Hunt::gone_on))]
    fn go_on(self, memory: &mut Memory, part: Part) -> ControlFlow<Link, Front>
        ensures is { result ≡ (gone_on memory.old part self).advance }
        ensures after { memory.new ≡ (gone_on memory.old part self).memory }
        ensures wrote { Writes searched memory.old memory.new }
    {
        let Some(seat) = self.cursor else {
            return ControlFlow::Continue(self);
        };
        let slot = SLOTS.get(memory, seat);
        let search = Search {
            side: self.side,
            part,
        };
        let fuel = search
            .spread_from(memory, slot, self.fuel)
            .map_break(|far| self.side.link(slot, far))?;
        let cursor = self.side.next(memory, seat);
        ControlFlow::Continue(Front {
            cursor,
            fuel,
            ..self
        })
    }
}

// Two searches in turn, until they meet or neither has anything to go on from. The part stands beside them, since it's one for both.
#[tactic(auto, using(crate::proofs::Bounding::hunting, memory::proofs::Footprints::footprints))]
fn hunt(memory: &mut Memory, part: Part, mut near: Front, mut far: Front) -> Option<Link>
    ensures is { result ≡ (hunted TURNS memory.old part near far).answer }
    ensures after { memory.new ≡ (hunted TURNS memory.old part near far).memory }
    ensures wrote { Writes searched memory.old memory.new }
{
    for _turn in 0..TURNS {
        if near.is_idle() && far.is_idle() {
            return None;
        }
        match near.go_on(memory, part) {
            ControlFlow::Break(link) => return Some(link),
            ControlFlow::Continue(front) => near = replace(&mut far, front),
        }
    }
    None
}

// For a link between slots that goes backward: whether links lead from its second end to its first. Says a link at which the searches from both ends
// met; none if they went to their ends.
#[tactic(auto, using(crate::proofs::Starting::meets_so, crate::proofs::Touching::writes_meeting), unfolding(crate::specs::Hunt::meeting))]
pub fn meet(memory: &mut Memory, link: Link) -> Option<Link>
    ensures is { result ≡ (meeting memory.old link).answer }
    ensures after { memory.new ≡ (meeting memory.old link).memory }
    ensures law { Meets memory.old link result memory.new }
    ensures wrote { Writes searched memory.old memory.new }
{
    let low = SEATS.get(memory, link.to);
    let high = SEATS.get(memory, link.from);
    Side::Fore.marks().add(memory, low);
    Side::Hind.marks().add(memory, high);
    let fore = Front::starting(Side::Fore, low);
    let hind = Front::starting(Side::Hind, high);
    hunt(memory, Part { low, high }, fore, hind)
}
