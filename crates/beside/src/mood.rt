// Which kind of saying comes next, by chance.
use crate::numbers::Numbers;

#[derive(Clone, Copy, Debug, PartialEq, Eq)]
pub(crate) enum Kind {
    Comes,
    Goes,
    Link,
    Unlink,
    Places,
    Several,
    Anew,
}

// In turns, a board gets fuller for a while and then emptier.
#[derive(Clone, Copy, Debug, PartialEq, Eq)]
enum Trend {
    Filling,
    Thinning,
}

// How a board goes for a while: and whether its row is made anew now and then. If it never is, so much is taken back in the end that the keeper clears up by
// itself.
#[derive(Clone, Copy, Debug, PartialEq, Eq)]
pub(crate) struct Mood {
    trend: Trend,
    tidies: bool,
}

// How often what is said, of 40 times.
const FILLING: [(Kind, u64); 7] = [
    (Kind::Comes, 6),
    (Kind::Goes, 1),
    (Kind::Link, 20),
    (Kind::Unlink, 2),
    (Kind::Places, 2),
    (Kind::Several, 8),
    (Kind::Anew, 1),
];

const THINNING: [(Kind, u64); 7] = [
    (Kind::Comes, 6),
    (Kind::Goes, 3),
    (Kind::Link, 9),
    (Kind::Unlink, 14),
    (Kind::Places, 3),
    (Kind::Several, 4),
    (Kind::Anew, 1),
];

impl Trend {
    fn other(self) -> Trend {
        match self {
            Trend::Filling => Trend::Thinning,
            Trend::Thinning => Trend::Filling,
        }
    }

    fn kind(self, numbers: &mut Numbers) -> Kind {
        let kinds = match self {
            Trend::Filling => FILLING,
            Trend::Thinning => THINNING,
        };
        let mut left = numbers.below(40);
        for (kind, times) in kinds {
            if left < times {
                return kind;
            }
            left -= times;
        }
        Kind::Anew
    }
}

impl Mood {
    pub(crate) const FIRST: Mood = Mood {
        trend: Trend::Filling,
        tidies: true,
    };

    // The mood changes after some time; the trend later, if there are more cards.
    pub(crate) fn next(self, numbers: &mut Numbers, cards: u64) -> Mood {
        let turns = numbers.once_in(cards.saturating_mul(12));
        let trend = if turns {
            self.trend.other()
        } else {
            self.trend
        };
        let tidies = self.tidies != numbers.once_in(10_000);
        Mood { trend, tidies }
    }

    pub(crate) fn kind(self, numbers: &mut Numbers) -> Kind {
        match self.trend.kind(numbers) {
            Kind::Anew if !self.tidies => Kind::Places,
            kind => kind,
        }
    }
}
