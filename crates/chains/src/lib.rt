// Labelled chains with back pointers, over lent memory: an entry is put in front of its key's chain, and taken out from wherever it stands, in a few
// writes and with no search.
#![tactic(auto)]

mod cells;
mod chain_table;
mod laws;
mod walk;

pub use cells::{CELLS, Cell, HELD, LABELS, POINTERS, Pointer};
pub use chain_table::ChainTable;
pub use laws::{begins_stands, each_once_stands};
pub use walk::Walk;
