// What is proved of a row made anew from any cards and links: a function for each statement, whose contract it is.
ghost use Rattle.batch.specs.AnewLaws.{MakesAnew, MakesUnfit};

// With memory or output that doesn't fit, it is refused, and nothing changes.
#[tactic(auto, using(crate::proofs::MakesAnew::makes_unfit))]
pub fn makes_unfit_stands() -> u8
    ensures { MakesUnfit }
{
    0
}

// Else it is refused just for the reason that is told, or the row is the one by the rule, or what is shown is a circle of the links.
#[tactic(auto, using(crate::proofs::MakesAnew::makes_anew))]
pub fn makes_anew_stands() -> u8
    ensures { MakesAnew }
{
    0
}
