// All rows in which a few cards can stand.
use crate::lines::Lines;
use std::alloc::{AllocError, Global};

// Of so many cards all rows are tried: of six there are 720.
const FEW: usize = 6;

// How many rows were tried, how often the lines didn't fix just the one row, and room for a row.
#[derive(Drop)]
pub(crate) struct Rows {
    pub tried: u64,
    pub unfixed: u64,
    row: Vec<u64>,
}

// In how many rows n cards can stand.
fn how_many(n: usize) -> usize {
    (1..=n).fold(1, |rows: usize, n| rows.saturating_mul(n))
}

impl Rows {
    pub(crate) fn new(alloc: Global) -> Rows {
        Rows {
            tried: 0,
            unfixed: 0,
            row: Vec::new(alloc),
        }
    }

    // Puts the cards into the row with this number: one after the other, each at the place that the number's next digit says, to the base of how many places
    // there are.
    fn put(&mut self, cards: &[u64], number: usize) -> Result<(), AllocError> {
        self.row.clear();
        let mut digits = number;
        for card in cards {
            let places = self.row.len() + 1;
            self.row.insert(digits % places, *card)?;
            digits /= places;
        }
        Ok(())
    }

    // Whether among all rows of these cards just this one meets the lines.
    fn is_only(&mut self, lines: &Lines, row: &[u64]) -> Result<bool, AllocError> {
        let mut meeting = 0u64;
        for number in 0..how_many(row.len()) {
            self.put(lines.row(), number)?;
            self.tried = self.tried.saturating_add(1);
            if lines.meets(self.row.as_slice()) {
                meeting = meeting.saturating_add(1);
            }
        }
        Ok(meeting == 1 && lines.meets(row))
    }

    // The row that the lines fix. Of few cards all rows are tried.
    pub(crate) fn fixed(&mut self, alloc: Global, lines: &Lines) -> Result<Vec<u64>, AllocError> {
        let row = lines.made(alloc)?;
        let is_fixed = if row.len() <= FEW {
            self.is_only(lines, row.as_slice())?
        } else {
            lines.meets(row.as_slice())
        };
        if !is_fixed {
            self.unfixed = self.unfixed.saturating_add(1);
        }
        Ok(row)
    }
}
