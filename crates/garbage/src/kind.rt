// The kinds of memories.
use crate::dice::Dice;

#[derive(Clone, Copy, Debug, PartialEq, Eq)]
pub(crate) enum Kind {
    Random,
    Small,
    Plausible,
    Dented,
    Circles,
    Misfit,
}

impl Kind {
    pub(crate) const ALL: [Kind; 6] = [
        Kind::Random,
        Kind::Small,
        Kind::Plausible,
        Kind::Dented,
        Kind::Circles,
        Kind::Misfit,
    ];

    // Where steps take long, as along circles, there are few.
    pub(crate) fn drawn(dice: &mut Dice) -> Kind {
        match dice.below(60) {
            0 => Kind::Circles,
            1..=5 => Kind::Misfit,
            6..=10 => Kind::Plausible,
            11..=20 => Kind::Small,
            21..=35 => Kind::Random,
            _ => Kind::Dented,
        }
    }

    pub(crate) fn name(self) -> &'static str {
        match self {
            Kind::Random => "random",
            Kind::Small => "small",
            Kind::Plausible => "plausible",
            Kind::Dented => "dented",
            Kind::Circles => "circles",
            Kind::Misfit => "misfit",
        }
    }

    // How many links are said at once, at most: more than are looked at, but for circles, where each of them takes long.
    pub(crate) fn most_links(self) -> u64 {
        match self {
            Kind::Circles => 16,
            _ => 300,
        }
    }
}
