// A program that reads bytes from a file or from its input: what its words ask for, and how it ends.
#![tactic(auto)]

mod running;
mod words;

pub use running::Program;
pub use words::{Wish, WordsError, wish_of};
