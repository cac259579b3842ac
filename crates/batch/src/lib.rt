// Several links said at once, and a row made anew by a rule, over the keeper of a board.
#![tactic(auto)]

mod anew_laws;
mod arranging;
mod check_laws;
mod checking;
mod circling;
mod event;
mod joining;
mod layout;
mod limits;
mod listing;
mod loading;
mod making_anew;
mod memory_laws;
mod playing;
mod renewing;
mod rule_laws;
mod saying;
mod seating;
mod several_laws;
mod sorting;
mod stepping;
mod theory;
mod tidy_laws;
mod tidying;
mod trying_laws;

pub use anew_laws::{makes_anew_stands, makes_unfit_stands};
pub use check_laws::{finds_all_stands, repeats_stands, span_moves_stands, spans_stands};
pub use event::Event;
pub use limits::limits_stand;
pub use making_anew::{Anew, make_anew};
pub use memory_laws::{columns_apart_stands, renews_stands, reseats_stands, saves_stands};
pub use playing::play;
pub use rule_laws::{
    anew_round_stands, anew_ruled_stands, kept_is_ruled_stands, ruled_cards_stands,
    ruled_keeps_stands, ruled_only_stands, sorted_so_stands,
};
pub use several_laws::{
    several_any_order_stands, several_between_stands, several_can_stands, several_kept_stands,
    several_one_stands, several_round_stands, several_single_stands,
};
pub use stepping::step;
pub use theory::{
    fits_stands, plays_shows_stands, plays_stands, plays_unfit_stands, whole_in_stands,
};
pub use tidy_laws::{arranges_stands, tidies_only_stands, tidies_stands};
pub use trying_laws::{
    joins_stands, saves_means_stands, takes_out_stands, tries_stands, undoes_none_stands,
    undoes_stands,
};
