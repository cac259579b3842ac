// What stands between two cards and is touched by a link: looked for from both ends in turn, settled, or shown as a way that goes round.
#![tactic(auto)]

mod hunt;
mod layout;
mod settling;
mod side;
mod theory;
mod way;

pub use hunt::meet;
pub use layout::{CHOSEN, FORE, HIND, VIA};
pub use settling::{forget, settle};
pub use theory::{adding_past_stands, fresh_memory_stands};
pub use way::{show_and_forget, show_trail};
