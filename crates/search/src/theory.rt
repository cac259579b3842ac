// What holds of this crate's columns and of marks with no call: a function for each statement, whose contract it is.
ghost use Rattle.search.specs.Columns.{FreshMemory};
ghost use Rattle.search.specs.MarkLaws.{AddingPast};

// In a memory of zeros no seat is marked.
#[tactic(auto, using(crate::proofs::Zeros::fresh_memory))]
pub fn fresh_memory_stands()
    ensures { FreshMemory }
{}

// A place past the last one can't be added.
#[tactic(auto, using(crate::proofs::PastPlaces::adding_past))]
pub fn adding_past_stands()
    ensures { AddingPast }
{}
