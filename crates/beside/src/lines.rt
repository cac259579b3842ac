// How little changes: what is asked of the row after a link from a to b, of which b stood first.
use crate::board::{Board, keeps};
use crate::leading::{leading_to, led_from};
use crate::saying::Pair;
use std::alloc::{AllocError, Global};

// The row before; the places of b and of a; the cards to which b leads and those that lead to a, these two included; and all links, the new one too.
#[derive(Drop)]
pub(crate) struct Lines<'a> {
    row: &'a [u64],
    first: usize,
    last: usize,
    led: Vec<u64>,
    leading: Vec<u64>,
    links: Vec<Pair>,
}

impl<'a> Lines<'a> {
    // None, if a stands before b already.
    pub(crate) fn of(
        alloc: Global,
        board: &'a Board,
        pair: Pair,
    ) -> Result<Option<Lines<'a>>, AllocError> {
        let (Some(first), Some(last)) = (board.place_of(pair.b), board.place_of(pair.a)) else {
            return Ok(None);
        };
        if last < first {
            return Ok(None);
        }
        let links = board.links.as_slice();
        Ok(Some(Lines {
            row: board.row.as_slice(),
            first,
            last,
            led: led_from(alloc, links, pair.b)?,
            leading: leading_to(alloc, links, pair.a)?,
            links: board.links_with(&[pair])?,
        }))
    }

    pub(crate) fn row(&self) -> &'a [u64] {
        self.row
    }

    // Whether a place is b's, or a's, or one between.
    fn is_within(&self, place: usize) -> bool {
        self.first <= place && place <= self.last
    }

    fn is_touched(&self, card: u64) -> bool {
        self.led.contains(&card) || self.leading.contains(&card)
    }

    // All that stood before b, and all that stood behind a, stands where it stood.
    fn ends_stay(&self, row: &[u64]) -> bool {
        let mut places = self.row.iter().zip(row).enumerate();
        places.all(|(place, (old, new))| self.is_within(place) || old == new)
    }

    // A card to which b doesn't lead, and which doesn't lead to a, keeps its very place.
    fn others_stay(&self, row: &[u64]) -> bool {
        let mut places = self.row.iter().zip(row);
        places.all(|(old, new)| self.is_touched(*old) || old == new)
    }

    // The cards of a group are in the order in which they were.
    fn in_order(&self, row: &[u64], group: &[u64]) -> bool {
        let old = self.row.iter().filter(|card| group.contains(*card));
        let new = row.iter().filter(|card| group.contains(*card));
        old.eq(new)
    }

    // Whether a row meets all that is asked.
    pub(crate) fn meets(&self, row: &[u64]) -> bool {
        row.len() == self.row.len()
            && self.ends_stay(row)
            && self.others_stay(row)
            && self.in_order(row, self.led.as_slice())
            && self.in_order(row, self.leading.as_slice())
            && keeps(row, self.links.as_slice())
    }

    // The cards of a group that stand from b's place to a's, added to others.
    fn gather(&self, group: &[u64], into: &mut Vec<u64>) -> Result<(), AllocError> {
        for (place, card) in self.row.iter().enumerate() {
            if self.is_within(place) && group.contains(card) {
                into.push(*card)?;
            }
        }
        Ok(())
    }

    // A row that ought to meet it: of the cards from b's place to a's those that lead to a take the first of the places that are given up, and those to which
    // b leads the others.
    pub(crate) fn made(&self, alloc: Global) -> Result<Vec<u64>, AllocError> {
        let mut movers = Vec::new(alloc);
        self.gather(self.leading.as_slice(), &mut movers)?;
        self.gather(self.led.as_slice(), &mut movers)?;
        let mut next = movers.iter().copied();
        let mut row = Vec::new(alloc);
        for (place, card) in self.row.iter().enumerate() {
            let moves = self.is_within(place) && self.is_touched(*card);
            let mover = if moves { next.next() } else { None };
            row.push(mover.unwrap_or(*card))?;
        }
        Ok(row)
    }
}
