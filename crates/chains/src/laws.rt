// What is proved of all tables of chains: a function for each statement, whose contract it is.
ghost use Rattle.chains.specs.Laws.{Begins, EachOnce};

// Where the heads are zeros, all chains are empty.
#[tactic(auto, using(crate::proofs::Clearing::begins))]
pub fn begins_stands() -> u8
    ensures { Begins }
{
    0
}

// No entry is twice in the chains that a memory holds.
#[tactic(auto, using(crate::proofs::Reading::each_once))]
pub fn each_once_stands() -> u8
    ensures { EachOnce }
{
    0
}
