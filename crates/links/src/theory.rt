// What is proved of the table: a function for each statement that is about no single one of the operations, whose contract it is.
ghost use Rattle.links.specs.Laws.{Lies, Begins, StaysOnce, Gives, Depends};

// No two columns of the table share a number, and all lie in the memory.
#[tactic(auto, using(crate::proofs::Beginning::lies))]
pub fn lies_stands() -> u8
    ensures { Lies }
{
    0
}

// Where the heads are zeros there are no links.
#[tactic(auto, using(crate::proofs::Beginning::begins))]
pub fn begins_stands() -> u8
    ensures { Begins }
{
    0
}

// Links of which none is there twice stay so.
#[tactic(auto, using(crate::proofs::Onces::stays_once))]
pub fn stays_once_stands() -> u8
    ensures { StaysOnce }
{
    0
}

// What the chains of a slot give, and the chain of all links.
#[tactic(auto, using(crate::proofs::Giving::gives))]
pub fn gives_stands() -> u8
    ensures { Gives }
{
    0
}

// What the table means depends on its columns alone.
#[tactic(auto, using(crate::proofs::Keeping::depends))]
pub fn depends_stands() -> u8
    ensures { Depends }
{
    0
}
