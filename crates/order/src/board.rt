// The words of a board: how large it may be, a link, and why something is refused.
ghost use Rattle.std.specs.Prelude.{◌≡◌};
ghost use Rattle.order.specs.Reordering.{number};

// How many cards there may be at once.
pub const CARDS: u64 = 8192;

// How many links there may be at once.
pub const LINKS: u64 = 65536;

// The card `from` has to stand before the card `to`.
#[derive(Clone, Copy, Debug, PartialEq, Eq)]
#[repr(C)]
pub struct Link {
    pub from: u64,
    pub to: u64,
}

// Why not: a card or a link that is spoken of isn't there; it is there already; the link would go round in a circle; there is no room.
#[derive(Clone, Copy, Debug, PartialEq, Eq)]
pub enum Refusal {
    Missing,
    Exists,
    Cycle,
    Full,
}

// The number by which a refusal is told.
impl From<Refusal> for u64 {
    ghost from_gives = { λ refusal n. n ≡ number refusal };

    fn from(refusal: Refusal) -> u64 {
        match refusal {
            Refusal::Missing => 3,
            Refusal::Exists => 4,
            Refusal::Cycle => 5,
            Refusal::Full => 7,
        }
    }
}
