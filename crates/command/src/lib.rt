// The commands of a board, and what is proved of them.
#![tactic(auto)]

mod command;
mod theory;

pub use command::Command;
pub use theory::{excluded_stands, stays_fine_stands, week_stands};
