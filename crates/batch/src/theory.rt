// What is proved of the engine of this crate: a function for each statement, whose contract it is.
ghost use Rattle.batch.specs.Own.{own};
ghost use Rattle.batch.specs.PlayLaws.{Plays, PlaysShows, PlaysUnfit};
ghost use Rattle.batch.specs.Promise.{WholeIn, Fits};

// The engine meets the promise, with each saying at its end within three steps.
#[tactic(auto, using(crate::proofs::Wholly::whole_in_own))]
pub fn whole_in_stands() -> u8
    ensures { WholeIn 3 own }
{
    0
}

// Its answers fit what carries them, whatever stands in its memory.
#[tactic(auto, using(crate::proofs::Wholly::own_fits))]
pub fn fits_stands() -> u8
    ensures { Fits own }
{
    0
}

// A saying that is played is done or refused as the board says, and the memory then means the board that it leaves.
#[tactic(auto, using(crate::proofs::PlayedRun::plays_right))]
pub fn plays_stands() -> u8
    ensures { Plays }
{
    0
}

// Of a saying that is played just that is shown which the promise names, at the front of the output.
pub fn plays_shows_stands() -> u8
    ensures { PlaysShows }
{
    0
}

// A saying that is played on a memory or with an output that doesn't fit is refused, and changes nothing.
#[tactic(auto, using(crate::proofs::PlayedRun::plays_unfit))]
pub fn plays_unfit_stands() -> u8
    ensures { PlaysUnfit }
{
    0
}
