// A row of cards with gaps in lent memory: who leaves it only gives up a seat, and nobody moves.
#![tactic(auto)]

mod cards;
mod layout;
mod lookup;
mod marking;
mod ranks;
mod seating;
mod slots;
mod telling;
mod theory;

pub use cards::{comes, goes, len, place_at, place_of};
pub use layout::{
    CHAIN, COUNT, ENDING, FREE, FRESH, HEADS, IDS, SEATS, SEATS_MOST, SLOTS, SPARE, TAKEN, WORDS,
};
pub use lookup::find;
pub use ranks::rank;
pub use seating::{pack, put_at, seat_of, slot_at};
pub use telling::{next, select, tell};
pub use theory::{apart_stands, begins_stands, columns_stand, depends_stands, slots_named_stands};
