// Why something that is said isn't done.
use crate::board::Board;
use crate::leading::led_from;
use crate::saying::{Pair, Saying};
use std::alloc::{AllocError, Global};

// A card or a link isn't there; one is there already; the links would go round; there are too many.
#[derive(Clone, Copy, Debug, PartialEq, Eq)]
pub(crate) enum Why {
    Missing,
    Exists,
    Round,
    Full,
}

impl From<Why> for u64 {
    fn from(why: Why) -> u64 {
        match why {
            Why::Missing => 3,
            Why::Exists => 4,
            Why::Round => 5,
            Why::Full => 7,
        }
    }
}

// How many links may be said at once.
const AT_ONCE: usize = 256;

impl Board {
    // Whether one of these links was said already, on the board or earlier among them.
    fn repeats(&self, pairs: &[Pair]) -> bool {
        pairs.iter().enumerate().any(|(i, pair)| self.is_linked(*pair) || pairs[..i].contains(pair))
    }

    // Whether one of these links goes round, by links of the board and of these.
    fn goes_round(&self, alloc: Global, pairs: &[Pair]) -> Result<bool, AllocError> {
        let links = self.links_with(pairs)?;
        for pair in pairs {
            if led_from(alloc, links.as_slice(), pair.b)?.contains(&pair.a) {
                return Ok(true);
            }
        }
        Ok(false)
    }

    // Why these links can't be said, the first reason that applies.
    fn why_not(&self, alloc: Global, pairs: &[Pair]) -> Result<Option<Why>, AllocError> {
        if !pairs.iter().all(|pair| self.has_both(*pair)) {
            return Ok(Some(Why::Missing));
        }
        if self.repeats(pairs) {
            return Ok(Some(Why::Exists));
        }
        Ok(self.goes_round(alloc, pairs)?.then_some(Why::Round))
    }

    // Why the saying is refused, the first reason that applies. The board never has as many cards and links as there may be.
    pub(crate) fn refusal(
        &self,
        alloc: Global,
        saying: &Saying,
    ) -> Result<Option<Why>, AllocError> {
        match saying {
            Saying::Comes(card) => Ok(self.has(*card).then_some(Why::Exists)),
            Saying::Goes(card) => Ok((!self.has(*card)).then_some(Why::Missing)),
            Saying::Link(pair) => self.why_not(alloc, &[*pair]),
            Saying::Unlink(pair) => Ok((!self.is_linked(*pair)).then_some(Why::Missing)),
            Saying::Places(pair) => Ok((!self.has_both(*pair)).then_some(Why::Missing)),
            Saying::Several(pairs) if pairs.len() > AT_ONCE => Ok(Some(Why::Full)),
            Saying::Several(pairs) => self.why_not(alloc, pairs.as_slice()),
            Saying::Anew => Ok(None),
        }
    }
}
