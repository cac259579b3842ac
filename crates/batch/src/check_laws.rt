// What is proved of the checks before several links are tried: a function for each statement, whose contract it is.
ghost use Rattle.batch.specs.CheckLaws.{FindsAll, Repeats, Spans, SpanMoves};

// The cards that the links name are found just if they are there.
#[tactic(auto, using(crate::proofs::CardsThere::finds_all))]
pub fn finds_all_stands() -> u8
    ensures { FindsAll }
{
    0
}

// A link is repeated just if it was said before.
#[tactic(auto, using(crate::proofs::Spanning::repeats))]
pub fn repeats_stands() -> u8
    ensures { Repeats }
{
    0
}

// Of a packed row, and of any once it is packed: if no link goes backward, the row keeps them all; else what is spanned is the part of the row that they
// name.
pub fn spans_stands() -> u8
    ensures { Spans }
{
    0
}

// So the part of the row that may change is none, or the one that the links name.
pub fn span_moves_stands() -> u8
    ensures { SpanMoves }
{
    0
}
