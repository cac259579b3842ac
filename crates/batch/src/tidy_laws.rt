// What is proved of the row put into the order of the cards' numbers, and tidied by the rule: a function for each statement, whose contract it is.
ghost use Rattle.batch.specs.ArrangeLaws.{Arranges};
ghost use Rattle.batch.specs.TidyLaws.{Tidies, TidiesOnly};

// The cards come to stand in the order of their numbers.
pub fn arranges_stands() -> u8
    ensures { Arranges }
{
    0
}

// Of a memory that means a board all cards come, and it means the board with its row tidied.
pub fn tidies_stands() -> u8
    ensures { Tidies }
{
    0
}

// Tidying keeps the memory's size, whatever stands in it.
pub fn tidies_only_stands() -> u8
    ensures { TidiesOnly }
{
    0
}
