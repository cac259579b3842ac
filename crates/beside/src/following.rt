// What becomes of the slow board by what is said, if it isn't refused.
use crate::board::Board;
use crate::lines::Lines;
use crate::rows::Rows;
use crate::saying::{Pair, Saying};
use std::alloc::{AllocError, Global};

impl Board {
    // A link is made, and the row becomes the one that the lines fix.
    fn link(&mut self, alloc: Global, rows: &mut Rows, pair: Pair) -> Result<(), AllocError> {
        let row = match Lines::of(alloc, self, pair)? {
            Some(lines) => rows.fixed(alloc, &lines)?,
            None => self.row.clone()?,
        };
        self.row = row;
        self.links.push(pair)?;
        Ok(())
    }

    // Links are made one after the other.
    fn link_all(
        &mut self,
        alloc: Global,
        rows: &mut Rows,
        pairs: &[Pair],
    ) -> Result<(), AllocError> {
        for pair in pairs {
            self.link(alloc, rows, *pair)?;
        }
        Ok(())
    }

    // Whether none that hasn't come has to stand before a card.
    fn is_free(&self, come: &[u64], card: u64) -> bool {
        let mut into = self.links.iter().filter(|link| link.b == card);
        into.all(|link| come.contains(&link.a))
    }

    // The smallest number of a card that hasn't come, of those that are free.
    fn next_to_come(&self, come: &[u64]) -> Option<u64> {
        self.row
            .iter()
            .copied()
            .filter(|card| !come.contains(card) && self.is_free(come, *card))
            .min()
    }

    // The row by the rule.
    fn made_anew(&self, alloc: Global) -> Result<Vec<u64>, AllocError> {
        let mut row = Vec::new(alloc);
        for _ in 0..self.row.len() {
            if let Some(card) = self.next_to_come(row.as_slice()) {
                row.push(card)?;
            }
        }
        Ok(row)
    }

    // Takes over what is said.
    pub(crate) fn follow(
        &mut self,
        alloc: Global,
        rows: &mut Rows,
        saying: &Saying,
    ) -> Result<(), AllocError> {
        match saying {
            Saying::Comes(card) => self.row.push(*card)?,
            Saying::Goes(card) => {
                self.row.retain(|other| *other != *card);
                self.links.retain(|link| link.a != *card && link.b != *card);
            }
            Saying::Link(pair) => self.link(alloc, rows, *pair)?,
            Saying::Unlink(pair) => self.links.retain(|link| *link != *pair),
            Saying::Places(_) => {}
            Saying::Several(pairs) => self.link_all(alloc, rows, pairs.as_slice())?,
            Saying::Anew => self.row = self.made_anew(alloc)?,
        }
        Ok(())
    }
}
