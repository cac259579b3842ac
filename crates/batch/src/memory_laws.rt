// What is proved of the columns of the lent memory, and of the row put aside, seated again and made anew in it: a function for each statement, whose
// contract it is.
ghost use Rattle.std.specs.Prelude.{◌≡◌, true};
ghost use Rattle.memory.specs.Footprints.{all_apart, all_lie};
ghost use Rattle.batch.specs.Columns.{all_columns};
ghost use Rattle.batch.specs.RenewLaws.{Renews};
ghost use Rattle.batch.specs.SeatLaws.{Saves, Reseats};

use memory::MEMORY;

// The columns of all crates share no number, and lie in the memory.
pub fn columns_apart_stands()
    ensures apart { all_apart all_columns ≡ true }
    ensures lie { all_lie MEMORY all_columns ≡ true }
{}

// What is put aside is the slots at the seats that were asked for; once the row is packed, these are the places.
pub fn saves_stands() -> u8
    ensures { Saves }
{
    0
}

// Slots that were put aside stand at their places again.
pub fn reseats_stands() -> u8
    ensures { Reseats }
{
    0
}

// What is made anew, from the row and the links that the memory has, is what comes by the rule.
pub fn renews_stands() -> u8
    ensures { Renews }
{
    0
}
