// Boards: cards in a row, links that say which card has to stand before which, what a link more asks of the row, and what is proved of them. No memory is
// touched here.
#![tactic(auto)]

mod board;
mod keeping;
mod theory;

pub use board::{CARDS, LINKS, Link, Refusal};
pub use keeping::{Misfit, kept};
pub use theory::{
    broken_just_stands, can_be_firm_stands, can_be_stands, firm_is_little_stands, kept_just_stands,
    leads_before_stands, leads_just_stands, leads_on_stands, limits_stand, little_is_loose_stands,
    only_between_stands, only_one_stands, only_touched_stands, refused_just_stands, renames_stands,
    round_there_stands,
};
