// What is proved of links that were tried and are taken out again: a function for each statement, whose contract it is.
ghost use Rattle.batch.specs.JoinLaws.{Joins, Tries};
ghost use Rattle.batch.specs.UndoLaws.{SavesMeans, TakesOut, Undoes, UndoesNone};

// A link that is tried is put in, with the row as if the link were said alone; or it goes round, and the memory means the same board.
pub fn joins_stands() -> u8
    ensures { Joins }
{
    0
}

// Links that are tried are all put in, with the row that they make; or one goes round, and those before it are in.
pub fn tries_stands() -> u8
    ensures { Tries }
{
    0
}

// The row put aside is no part of what the memory means.
pub fn saves_means_stands() -> u8
    ensures { SavesMeans }
{
    0
}

// Links that were put in last are taken out again.
pub fn takes_out_stands() -> u8
    ensures { TakesOut }
{
    0
}

// After links were tried and undone, of a packed row or of any once it is packed, the memory means the board that it meant before.
pub fn undoes_stands() -> u8
    ensures { Undoes }
{
    0
}

// After links were tried and undone, where no part of the row was put aside, the memory means the board that it meant before.
pub fn undoes_none_stands() -> u8
    ensures { UndoesNone }
{
    0
}
