// What holds of sets of places with no call: a function for each statement, whose contract it is.
ghost use Rattle.memory.specs.PlaceSetLaws.{Skips, Zeros, CellsAlone};

// Passing over what isn't marked changes nothing: trying place after place finds the same.
#[tactic(auto, using(crate::proofs::Sweeps::skips))]
pub fn skips_stands()
    ensures { Skips }
{}

// A column of zeros marks nothing.
#[tactic(auto, using(crate::proofs::NoPlaces::zeros))]
pub fn zeros_stands()
    ensures { Zeros }
{}

// What is marked depends on the column's cells alone.
#[tactic(auto, using(crate::proofs::Alone::cells_alone))]
pub fn alone_stands()
    ensures { CellsAlone }
{}
