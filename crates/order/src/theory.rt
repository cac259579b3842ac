// What is proved of boards: a function for each statement, whose contract it is.
ghost use Rattle.std.specs.Prelude.{◌≡◌};
ghost use Rattle.order.specs.Theory.{CanBe, CanBeFirm, OnlyOne, FirmIsLittle, LeadsOn, LeadsBefore, LeadsJust};
ghost use Rattle.order.specs.Theory.{RoundThere, OnlyBetween, OnlyTouched, LittleIsLoose};
ghost use Rattle.order.specs.Renaming.{Renames};
ghost use Rattle.order.specs.Kept.{KeptJust, BrokenJust, RefusedJust};

use crate::board::{CARDS, LINKS};
use crate::keeping::MOST;

// A link that is not refused can be kept.
#[tactic(auto, using(crate::proofs::Firm::can_be))]
pub fn can_be_stands() -> u8
    ensures { CanBe }
{
    0
}

// If it goes backward, by a row in which each card that it does not touch keeps its place.
#[tactic(auto, using(crate::proofs::Firm::can_be_firm))]
pub fn can_be_firm_stands() -> u8
    ensures { CanBeFirm }
{
    0
}

// There is no other such row.
#[tactic(auto, using(crate::proofs::Only::only_one))]
pub fn only_one_stands() -> u8
    ensures { OnlyOne }
{
    0
}

// A firm row is a little changed one.
#[tactic(auto, using(crate::proofs::Only::firm_is_little))]
pub fn firm_is_little_stands() -> u8
    ensures { FirmIsLittle }
{
    0
}

// What leads where, leads on, and never back.
pub fn leads_on_stands() -> u8
    ensures { LeadsOn }
{
    0
}

// What leads where stands before it.
#[tactic(auto, using(crate::proofs::Leading::leads_before))]
pub fn leads_before_stands() -> u8
    ensures { LeadsBefore }
{
    0
}

// Leads is what links lead to, no less and no more.
pub fn leads_just_stands() -> u8
    ensures { LeadsJust }
{
    0
}

// A link that would go round: the way can be shown.
#[tactic(auto, using(crate::proofs::Circles::round_there))]
pub fn round_there_stands() -> u8
    ensures { RoundThere }
{
    0
}

// Only what stands between the two cards may have another place.
#[tactic(auto, using(crate::proofs::Little::only_between))]
pub fn only_between_stands() -> u8
    ensures { OnlyBetween }
{
    0
}

// And of that only what is touched, if the row is firm.
#[tactic(auto, using(crate::proofs::Only::only_touched))]
pub fn only_touched_stands() -> u8
    ensures { OnlyTouched }
{
    0
}

// An example: little alone does not say what row it has to be.
#[tactic(auto, using(crate::proofs::Examples::little_is_loose))]
pub fn little_is_loose_stands() -> u8
    ensures { LittleIsLoose }
{
    0
}

// A board with other names for its cards is the same board.
pub fn renames_stands() -> u8
    ensures { Renames }
{
    0
}

// Kept is the reply just if the row keeps the links.
#[tactic(auto, using(crate::proofs::Replies::kept_just))]
pub fn kept_just_stands() -> u8
    ensures { KeptJust }
{
    0
}

// Broken is the reply just if it names the first link that isn't kept.
pub fn broken_just_stands() -> u8
    ensures { BrokenJust }
{
    0
}

// Refused is the reply only if there is half a link, or too much.
#[tactic(auto, using(crate::proofs::Replies::refused_just))]
pub fn refused_just_stands() -> u8
    ensures { RefusedJust }
{
    0
}

// How much there may be: the numbers that README names, 8,192 cards and 65,536 links on a board, 65,536 of each where it is asked whether a row keeps
// links.
pub fn limits_stand()
    ensures cards { CARDS ≡ 8192 }
    ensures links { LINKS ≡ 65536 }
    ensures most { MOST ≡ 65536 }
{}
