// The two searches: forward along the links out of a card, and backward along those into it.
ghost use Rattle.std.specs.Prelude.{◌≡◌};
ghost use Rattle.search.specs.Sides.{table_of, marks_of, other, ahead, joined};

use crate::layout::{FORE, HIND};
use chains::ChainTable;
use links::{IN, OUT};
use memory::{Memory, PlaceSet};
use order::Link;

// An enum, and not a trait with a type for each: the searches take turns in one loop, where each comes to stand in the other's place.
#[derive(Clone, Copy)]
pub(crate) enum Side {
    Fore,
    Hind,
}

impl Side {
    // The chains by which it goes on. A pointer's label is the slot that its link leads to.
    #[inline(always)]
    pub(crate) fn table(self) -> ChainTable
        ensures { result ≡ table_of self }
    {
        match self {
            Side::Fore => OUT,
            Side::Hind => IN,
        }
    }

    // The seats that it has come to.
    #[inline(always)]
    pub(crate) fn marks(self) -> PlaceSet
        ensures { result.column ≡ marks_of self }
    {
        match self {
            Side::Fore => FORE,
            Side::Hind => HIND,
        }
    }

    #[inline(always)]
    pub(crate) fn other(self) -> Side
        ensures { result ≡ other self }
    {
        match self {
            Side::Fore => Side::Hind,
            Side::Hind => Side::Fore,
        }
    }

    // The next seat that it has come to: to the right forward, to the left backward.
    pub(crate) fn next(self, memory: &Memory, seat: u64) -> Option<u64>
        ensures { result ≡ ahead memory.now self seat }
    {
        match self {
            Side::Fore => FORE.next_up(memory, seat),
            Side::Hind => HIND.next_down(memory, seat),
        }
    }

    // The link by which it comes from one slot to another.
    pub(crate) fn link(self, near: u64, far: u64) -> Link
        ensures { result ≡ joined self near far }
    {
        match self {
            Side::Fore => Link {
                from: near,
                to: far,
            },
            Side::Hind => Link {
                from: far,
                to: near,
            },
        }
    }
}
