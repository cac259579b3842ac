// What is said.
use command::Command;

// A command of the keeper is said; or the links of the batch that is lent beside it, all at once; or the row is to be made anew, from the order of
// the cards' numbers; or one is to go on with the last saying.
//
// The links of `Several` are not in the event but lent beside it: so an event is a plain value, and no clause speaks of a reference inside one.
#[derive(Clone, Copy, Debug, PartialEq, Eq)]
pub enum Event {
    Said(Command),
    Several,
    Anew,
    Next,
}
