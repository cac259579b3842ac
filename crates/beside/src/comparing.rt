// Whether what came of a saying is what had to come of it.
use crate::answer::{Answer, Course, Part};
use crate::board::{Board, keeps};
use crate::player::Player;
use crate::refusing::Why;
use crate::saying::{Pair, Saying};

// A saying, the slow board before it and after it, and why that refuses it, if it does.
#[derive(Drop)]
pub(crate) struct Due {
    pub saying: Saying,
    pub before: Board,
    pub after: Board,
    pub refused: Option<Why>,
}

// Whether the cards are different ones, each linked to the next by one of these links.
fn is_way(links: &[Pair], new: &[Pair], cards: &[u64]) -> bool {
    let next = cards.iter().skip(1);
    let are_linked = cards.iter().zip(next).all(|(a, b)| {
        let pair = Pair { a: *a, b: *b };
        links.contains(&pair) || new.contains(&pair)
    });
    let mut counted = cards.iter().enumerate();
    are_linked && counted.all(|(i, card)| !cards[..i].contains(card))
}

impl Due {
    pub(crate) fn end(&self) -> Result<(), u64> {
        match self.refused {
            Some(why) => Err(u64::from(why)),
            None => Ok(()),
        }
    }

    // Whether it moves cards.
    pub(crate) fn moves(&self) -> bool {
        self.before.row.len() == self.after.row.len()
            && self.before.row.as_slice() != self.after.row.as_slice()
    }

    // Whether the cards are a way from b to a by the links of the board.
    fn leads_back(&self, pair: Pair, cards: &[u64]) -> bool {
        is_way(self.before.links.as_slice(), &[], cards)
            && cards.first() == Some(&pair.b)
            && cards.last() == Some(&pair.a)
    }

    // Whether the cards are a circle by the links of the board and the new ones.
    fn is_circle(&self, new: &[Pair], cards: &[u64]) -> bool {
        let links = self.before.links.as_slice();
        let (Some(first), Some(last)) = (cards.first(), cards.last()) else {
            return false;
        };
        let closing = Pair {
            a: *last,
            b: *first,
        };
        is_way(links, new, cards) && (links.contains(&closing) || new.contains(&closing))
    }

    // Whether the numbers are the places of two cards.
    fn are_places(&self, pair: Pair, shown: &[u64]) -> bool {
        let (Some(a), Some(b)) = (self.before.place_of(pair.a), self.before.place_of(pair.b)) else {
            return false;
        };
        shown == [a as u64, b as u64].as_slice()
    }

    // Whether just what has to be shown is shown.
    fn shows(&self, shown: &[u64]) -> bool {
        match (&self.saying, self.refused) {
            (Saying::Places(pair), None) => self.are_places(*pair, shown),
            (Saying::Link(pair), Some(Why::Round)) => self.leads_back(*pair, shown),
            (Saying::Several(pairs), Some(Why::Round)) => self.is_circle(pairs.as_slice(), shown),
            _ => shown.is_empty(),
        }
    }

    // The part of the row from the first card that these links name to the last, if one of them goes backward.
    fn named_part(&self, pairs: &[Pair]) -> Option<Part> {
        if keeps(self.before.row.as_slice(), pairs) {
            return None;
        }
        let places = || {
            pairs
                .iter()
                .flat_map(|pair| [pair.a, pair.b])
                .filter_map(|card| self.before.place_of(card))
        };
        let first = places().min()? as u64;
        let last = places().max()? as u64;
        Some(Part {
            from: first,
            to: last.saturating_add(1),
        })
    }

    // The part of the row that may be told of.
    pub(crate) fn part(&self) -> Option<Part> {
        if self.refused.is_some() {
            return None;
        }
        match &self.saying {
            Saying::Link(pair) => self.named_part(&[*pair]),
            Saying::Several(pairs) => self.named_part(pairs.as_slice()),
            Saying::Anew => Some(Part {
                from: 0,
                to: self.before.row.len() as u64,
            }),
            _ => None,
        }
    }

    // Whether no more is told than may be: of several links what lies in the part, else just the part.
    fn tells(&self, told: Option<Part>) -> bool {
        match (&self.saying, self.part(), told) {
            (Saying::Several(_), Some(part), Some(told)) => {
                part.from <= told.from && told.to <= part.to
            }
            (_, part, told) => part == told,
        }
    }

    // All cards outside the part that may be told of stand where they stood.
    fn stays_outside(&self) -> bool {
        let Saying::Several(_) = &self.saying else {
            return true;
        };
        let part = self.part().unwrap_or(Part { from: 0, to: 0 });
        let rows = self.before.row.iter().zip(&self.after.row);
        (0u64..).zip(rows).all(|(place, (old, new))| (part.from <= place && place < part.to)
            || old == new)
    }

    // What came otherwise, if anything did.
    pub(crate) fn differs(&self, answer: &Answer, player: &Player) -> Option<&'static str> {
        let row = self.after.row.as_slice();
        if !answer.keeps_turn() {
            return Some("what was said out of turn wasn't refused by 1 or 2");
        }
        if answer.end != Some(self.end()) {
            return Some("whether it is done or refused, and why");
        }
        if !self.shows(answer.shown.as_slice()) {
            return Some("what is shown");
        }
        if player.read() != row {
            return Some("the row");
        }
        if player.kept() != row {
            return Some("the row as it was told");
        }
        if answer.course == Course::StepByStep && !self.tells(answer.told) {
            return Some("which part of the row is told");
        }
        if !self.stays_outside() {
            return Some("a card outside the part that the links name has another place");
        }
        None
    }
}
