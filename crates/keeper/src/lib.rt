// The keeper of a board: what it is told and what it answers, what is promised of it, and what is proved of the promise.
#![tactic(auto)]

mod event;
mod layout;
mod linking;
mod pending;
mod playing;
mod reordering;
mod stepping;
mod telling;
mod theory;

pub use event::{Act, Event, Reason, Telling};
pub use layout::{MORE_FROM, MORE_TO, OUTPUT, Output, PENDING, TOLD};
pub use linking::slots_of;
pub use memory::{MEMORY, Memory};
pub use order::LINKS;
pub use pending::Pending;
pub use playing::{Played, play, play_on, read_row};
pub use stepping::{hear, step};
pub use theory::{
    end_stays_stands, endless_is_not_stands, fits_stands, idle_is_not_stands, limits_stand,
    one_board_stands, plays_stands, plays_unfit_stands, reads_row_stands, soon_is_more_stands,
    whole_in_stands, whole_stands,
};
