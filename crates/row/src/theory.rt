// What is proved of the row in its memory with no call: a function for each statement, whose contract it is.
ghost use Rattle.std.specs.Prelude.{◌≡◌, true};
ghost use Rattle.memory.specs.Footprints.{all_apart, all_lie};
ghost use Rattle.row.specs.Columns.{columns};
ghost use Rattle.row.specs.Theory.{Begins, Apart, SlotsNamed, Depends};

use memory::LINKS_BASE;

// The columns share no number, and end before those of the links begin.
pub fn columns_stand()
    ensures apart { all_apart columns ≡ true }
    ensures lie { all_lie LINKS_BASE columns ≡ true }
{}

// Zeros are a row, with no cards.
pub fn begins_stands()
    ensures { Begins }
{}

// No card stands twice.
#[tactic(auto, using(crate::proofs::Present::apart))]
pub fn apart_stands()
    ensures { Apart }
{}

// The board of cards is the board of slots with other names.
pub fn slots_named_stands()
    ensures { SlotsNamed }
{}

// What the row means depends on the columns of this crate alone.
#[tactic(auto, using(crate::proofs::Depending::depends_both))]
pub fn depends_stands()
    ensures { Depends }
{}
