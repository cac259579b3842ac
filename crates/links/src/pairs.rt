// The slots of a link in one number, and the bucket that it is looked for in.
ghost use Rattle.std.specs.Prelude.{◌≡◌};
ghost use Rattle.links.specs.Pairs.{is_between, pair, bucket};

use crate::layout::BUCKET;
use order::{CARDS, Link};

// What spreads numbers that lie close together: 2^64 over the golden ratio.
pub const SPREAD: u64 = 0x9E37_79B9_7F4A_7C15;

// Whether a link is between slots.
#[inline(always)]
pub(crate) fn is_between(link: Link) -> bool
    ensures { result ≡ is_between link }
{
    link.from < CARDS && link.to < CARDS
}

// The pair of slots in one number.
#[tactic(auto, unfolding(crate::specs::Pairs::pair))]
#[inline(always)]
pub(crate) fn pair(link: Link) -> u64
    ensures { result ≡ pair link }
{
    link.from % CARDS * CARDS + link.to % CARDS
}

// The bucket of a link.
#[tactic(auto, unfolding(crate::specs::Pairs::bucket))]
#[inline(always)]
pub(crate) fn bucket(link: Link) -> u64
    ensures { result ≡ bucket link }
{
    pair(link).wrapping_mul(SPREAD) / BUCKET
}
