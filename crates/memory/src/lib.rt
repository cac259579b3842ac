// Lent memory: columns of numbers, sets of places as bits, and what an operation writes of them.
#![tactic(auto)]

mod column;
mod layout;
mod place_set;
mod theory;

pub use column::{Column, MEMORY, Memory};
pub use layout::{LINKS_BASE, PAD, ROW_BASE};
pub use place_set::{PLACES, PlaceSet, SET_WORDS};
pub use theory::{alone_stands, skips_stands, zeros_stands};
