// What is said next, by chance.
use crate::board::Board;
use crate::mood::{Kind, Mood};
use crate::numbers::Numbers;
use crate::saying::{Pair, Saying};
use std::alloc::{AllocError, Global};

// Draws sayings about a board on which there may be the cards from 1 up to `cards`.
#[derive(Drop)]
struct Drawing<'a> {
    numbers: &'a mut Numbers,
    board: &'a Board,
    cards: u64,
}

impl<'a> Drawing<'a> {
    // Any card that may come.
    fn any_card(&mut self) -> u64 {
        self.numbers.below(self.cards).saturating_add(1)
    }

    // Mostly a card that is there. Sometimes it isn't, or is one that never comes.
    fn card(&mut self) -> u64 {
        if self.numbers.once_in(24) {
            return self.numbers.below(self.cards.saturating_add(2));
        }
        self.numbers
            .pick(self.board.row.as_slice())
            .unwrap_or_else(|| self.any_card())
    }

    fn two_cards(&mut self) -> Pair {
        let a = self.card();
        let b = self.card();
        if a == b && !self.numbers.once_in(12) {
            return Pair { a, b: self.card() };
        }
        Pair { a, b }
    }

    // A link that is there, if there is any.
    fn old_pair(&mut self) -> Pair {
        match self.numbers.pick(self.board.links.as_slice()) {
            Some(pair) => pair,
            None => self.two_cards(),
        }
    }

    // Two cards, now and then of a link that is there, or of one turned round.
    fn pair(&mut self) -> Pair {
        match self.numbers.below(48) {
            0 => self.old_pair(),
            1 => self.old_pair().turned(),
            _ => self.two_cards(),
        }
    }

    // How many links are said at once: mostly a few, sometimes as many as may be, or one too many.
    fn how_many(&mut self) -> u64 {
        match self.numbers.below(64) {
            0 => self.numbers.below(2).saturating_add(256),
            1..8 => self.numbers.below(20),
            _ => self.numbers.below(5),
        }
    }

    fn pairs(&mut self, alloc: Global) -> Result<Vec<Pair>, AllocError> {
        let mut pairs = Vec::new(alloc);
        for _ in 0..self.how_many() {
            pairs.push(self.pair())?;
        }
        Ok(pairs)
    }

    // Mostly a link that is there.
    fn pair_to_unlink(&mut self) -> Pair {
        if self.numbers.once_in(4) {
            self.two_cards()
        } else {
            self.old_pair()
        }
    }

    fn saying(&mut self, alloc: Global, kind: Kind) -> Result<Saying, AllocError> {
        Ok(match kind {
            Kind::Comes => Saying::Comes(self.any_card()),
            Kind::Goes => Saying::Goes(self.card()),
            Kind::Link => Saying::Link(self.pair()),
            Kind::Unlink => Saying::Unlink(self.pair_to_unlink()),
            Kind::Places => Saying::Places(self.two_cards()),
            Kind::Several => Saying::Several(self.pairs(alloc)?),
            Kind::Anew => Saying::Anew,
        })
    }
}

// Draws a saying about the board, by the mood.
pub(crate) fn draw(
    alloc: Global,
    numbers: &mut Numbers,
    mood: Mood,
    board: &Board,
    cards: u64,
) -> Result<Saying, AllocError> {
    let kind = mood.kind(numbers);
    let mut drawing = Drawing {
        numbers,
        board,
        cards,
    };
    drawing.saying(alloc, kind)
}
