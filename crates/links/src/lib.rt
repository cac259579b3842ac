// Links between slots in lent memory: a table of entries in labelled chains, by the slot a link comes out of, by the slot it goes into, by its age, and by
// both slots. An entry that is given back waits in a chain of its own for the next link.
#![tactic(auto)]

mod entries;
mod insertion;
mod layout;
mod lookup;
mod pairs;
mod removal;
mod theory;

pub use entries::len;
pub use insertion::insert;
pub use layout::{AGE, ALL, ENTRIES, FREE, IN, LIVE, OUT, PAIR, USED};
pub use lookup::find;
pub use removal::{remove, remove_all};
pub use theory::{begins_stands, depends_stands, gives_stands, lies_stands, stays_once_stands};
