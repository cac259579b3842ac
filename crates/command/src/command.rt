// What can be said to the keeper of a board.
use order::Link;

// A card comes, at the end of the row, or goes, with its links; a link is made, or taken back; the places of two cards are asked for.
#[derive(Clone, Copy, Debug, PartialEq, Eq)]
pub enum Command {
    Comes(u64),
    Goes(u64),
    Link(Link),
    Unlink(Link),
    Places(u64, u64),
}
