// What is proved of several links said at once: a function for each statement, whose contract it is.
ghost use Rattle.batch.specs.SeveralLaws.{SeveralCan, SeveralOne, SeveralRound, SeveralBetween};
ghost use Rattle.batch.specs.SeveralLaws.{SeveralKept, SeveralSingle, SeveralAnyOrder};

// If no link goes round, there is a row that the links make.
#[tactic(auto, using(crate::proofs::SeveralRows::several_can))]
pub fn several_can_stands() -> u8
    ensures { SeveralCan }
{
    0
}

// And only one.
#[tactic(auto, using(crate::proofs::SeveralRows::several_one))]
pub fn several_one_stands() -> u8
    ensures { SeveralOne }
{
    0
}

// If one goes round, there is a circle of links, and no row keeps them all.
#[tactic(auto, using(crate::proofs::SeveralOrder::several_round))]
pub fn several_round_stands() -> u8
    ensures { SeveralRound }
{
    0
}

// Only cards from the first to the last that a link names may have another place.
#[tactic(auto, using(crate::proofs::SeveralBetween::several_between))]
pub fn several_between_stands() -> u8
    ensures { SeveralBetween }
{
    0
}

// If the row keeps the links already, it stays as it is.
#[tactic(auto, using(crate::proofs::SeveralRows::several_kept))]
pub fn several_kept_stands() -> u8
    ensures { SeveralKept }
{
    0
}

// One link said so is as if it were said alone.
pub fn several_single_stands() -> u8
    ensures { SeveralSingle }
{
    0
}

// The order of the links doesn't matter for whether they are refused, nor for the reason.
#[tactic(auto, using(crate::proofs::SeveralOrder::several_any_order))]
pub fn several_any_order_stands() -> u8
    ensures { SeveralAnyOrder }
{
    0
}
