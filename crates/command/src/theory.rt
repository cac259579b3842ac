// What is proved of commands: a function for each statement, whose contract it is.
ghost use Rattle.command.specs.Staying.{StaysFine};
ghost use Rattle.command.specs.Week.{Week};
ghost use Rattle.command.specs.Excluded.{Excluded};

// A board that is fine stays fine.
#[tactic(auto, using(crate::proofs::Staying::stays_fine))]
pub fn stays_fine_stands() -> u8
    ensures { StaysFine }
{
    0
}

// A week, worked through.
#[tactic(auto, using(crate::proofs::Examples::week))]
pub fn week_stands() -> u8
    ensures { Week }
{
    0
}

// Rows and ways that one might take for right, and that are not.
#[tactic(auto, using(crate::proofs::Examples::excluded))]
pub fn excluded_stands() -> u8
    ensures { Excluded }
{
    0
}
