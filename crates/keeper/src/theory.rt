// What is proved of engines: a function for each statement, whose contract it is.
ghost use Rattle.std.specs.Prelude.{◌≡◌};
ghost use Rattle.keeper.specs.Own.{own};
ghost use Rattle.keeper.specs.Promise.{Whole};
ghost use Rattle.keeper.specs.Sister.{WholeIn, SoonIsMore, EndStays, OneBoard};
ghost use Rattle.keeper.specs.Sized.{Fits};
ghost use Rattle.keeper.specs.Excluded.{IdleIsNot, EndlessIsNot};
ghost use Rattle.keeper.specs.PlayLaws.{Plays, PlaysUnfit, ReadsRow};

use crate::layout::{OUTPUT, TOLD};
use memory::MEMORY;

// What meets the firmer promise meets the promise.
#[tactic(auto, using(crate::proofs::Simulation::soon_is_more))]
pub fn soon_is_more_stands()
    ensures { SoonIsMore }
{}

// A run that is at its end stays as it is with more steps.
#[tactic(auto, using(crate::proofs::Ends::end_stays))]
pub fn end_stays_stands()
    ensures { EndStays }
{}

// Two engines that meet the firmer promise come to the same board.
#[tactic(auto, using(crate::proofs::Same::one_board))]
pub fn one_board_stands()
    ensures { OneBoard }
{}

// An engine that refuses everything doesn't meet the promise.
#[tactic(auto, using(crate::proofs::Excluding::idle_is_not))]
pub fn idle_is_not_stands()
    ensures { IdleIsNot }
{}

// An engine that never comes to an end doesn't meet the promise.
#[tactic(auto, using(crate::proofs::Excluding::endless_is_not))]
pub fn endless_is_not_stands()
    ensures { EndlessIsNot }
{}

// The keeper's engine meets the promise.
#[tactic(auto, using(crate::proofs::Wholly::whole_own))]
pub fn whole_stands()
    ensures { Whole own }
{}

// It meets the firmer promise, with each command at its end within three steps.
#[tactic(auto, using(crate::proofs::Wholly::whole_in_own))]
pub fn whole_in_stands()
    ensures { WholeIn 3 own }
{}

// Its answers fit what carries them, whatever stands in its memory.
#[tactic(auto, using(crate::proofs::OwnSize::own_fits))]
pub fn fits_stands()
    ensures { Fits own }
{}

// A command that is played is done or refused as the board says, and the memory then means the board that it leaves.
#[tactic(auto, using(crate::proofs::PlayedRun::plays_right))]
pub fn plays_stands()
    ensures { Plays }
{}

// A command that is played on a memory or with an output that doesn't fit is refused, and changes nothing.
#[tactic(auto, using(crate::proofs::PlayedRun::plays_unfit))]
pub fn plays_unfit_stands()
    ensures { PlaysUnfit }
{}

// The row that is read is the board's.
pub fn reads_row_stands()
    ensures { ReadsRow }
{}

// How much room there has to be, and how many cards are told at once: the numbers that README names.
pub fn limits_stand()
    ensures memory { MEMORY ≡ 524288 }
    ensures output { OUTPUT ≡ 8192 }
    ensures told { TOLD ≡ 4096 }
{}
