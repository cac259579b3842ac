// The keeper for C: a function for each saying, declared in `include/keeper.h`. Each says to the crates below what it is named after, and states their
// contract again.
#![tactic(auto)]

mod answer;
mod sayings;
mod several;

pub use answer::KeeperAnswer;
pub use sayings::{
    keeper_comes, keeper_goes, keeper_link, keeper_places, keeper_row, keeper_unlink,
};
pub use several::{keeper_anew, keeper_several};
