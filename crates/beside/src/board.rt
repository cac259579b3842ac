// The slow board: cards in a row, and links. Whatever is asked of it is found by looking through all of them.
use crate::saying::Pair;
use std::alloc::{AllocError, Global};

#[derive(Drop)]
pub(crate) struct Board {
    pub row: Vec<u64>,
    pub links: Vec<Pair>,
}

impl Board {
    pub(crate) fn new(alloc: Global) -> Board {
        Board {
            row: Vec::new(alloc),
            links: Vec::new(alloc),
        }
    }

    pub(crate) fn copy(&self) -> Result<Board, AllocError> {
        Ok(Board {
            row: self.row.clone()?,
            links: self.links.clone()?,
        })
    }

    pub(crate) fn has(&self, card: u64) -> bool {
        self.row.contains(&card)
    }

    pub(crate) fn has_both(&self, pair: Pair) -> bool {
        self.has(pair.a) && self.has(pair.b)
    }

    pub(crate) fn is_linked(&self, pair: Pair) -> bool {
        self.links.contains(&pair)
    }

    // How many cards stand before a card, if it is there.
    pub(crate) fn place_of(&self, card: u64) -> Option<usize> {
        self.row.iter().position(|other| *other == card)
    }

    // These links and those of the board.
    pub(crate) fn links_with(&self, pairs: &[Pair]) -> Result<Vec<Pair>, AllocError> {
        let mut links = self.links.clone()?;
        links.extend_from_slice(pairs)?;
        Ok(links)
    }
}

// Whether a stands before b: of the two, it is met first.
pub(crate) fn stands_before(row: &[u64], pair: Pair) -> bool {
    row.iter()
        .find(|card| **card == pair.a || **card == pair.b)
        .is_some_and(|card| *card == pair.a && pair.a != pair.b)
}

// Whether a row keeps all of these links.
pub(crate) fn keeps(row: &[u64], links: &[Pair]) -> bool {
    links.iter().all(|pair| stands_before(row, *pair))
}
