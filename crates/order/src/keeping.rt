// Whether a row keeps links, which are given as numbers, two to a link.
ghost use Rattle.std.specs.Prelude.{◌≡◌};
ghost use Rattle.order.specs.Kept.{before, broken_pair, kept_reply, misfit_number, Names};

// Why it can't be said whether a row keeps links: the last link has no second card, or there are too many cards or links.
#[derive(Clone, Copy, Debug, PartialEq, Eq)]
pub enum Misfit {
    HalfLink,
    TooMany,
}

// The number by which it is told.
impl From<Misfit> for u64 {
    ghost from_gives = { λ misfit n. n ≡ misfit_number misfit };

    fn from(misfit: Misfit) -> u64 {
        match misfit {
            Misfit::HalfLink => 1,
            Misfit::TooMany => 2,
        }
    }
}

// How many cards, and how many links, are looked at.
pub(crate) const MOST: usize = 65536;

// Whether a card stands before another: the first of the two that is met decides.
fn before(row: &[u64], from: u64, to: u64) -> bool
    ensures { result ≡ before row.now from to }
{
    row.iter()
        .find(|card| **card == from || **card == to)
        .is_some_and(|card| *card != to)
}

// The number of the first link that the row doesn't keep.
fn first_broken(row: &[u64], links: &[[u64; 2]]) -> Option<u64>
    ensures { result ≡ broken_pair row.now links.now }
{
    links
        .iter()
        .position(|[from, to]| !before(row, *from, *to))
        .map(|i| i as u64)
}

// The number of the first link, counted from 0, whose first card doesn't stand before its second; none if the row keeps all links. A card that isn't in
// the row stands behind all that are; one that is there twice stands where it is met first. Each link costs at most one look at each card.
#[tactic(auto, using(crate::proofs::Firsts::pairs_are))]
pub fn kept(row: &[u64], links: &[u64]) -> Result<Option<u64>, Misfit>
    ensures is { result ≡ kept_reply row.now links.now }
    ensures names { Names links.now result }
{
    let (links, half) = links.as_chunks::<2>();
    if !half.is_empty() {
        return Err(Misfit::HalfLink);
    }
    if row.len() > MOST || links.len() > MOST {
        return Err(Misfit::TooMany);
    }
    Ok(first_broken(row, links))
}
