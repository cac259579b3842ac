// What can be said, in words of this program's own.
use std::fmt;

// Card a has to stand before card b.
#[derive(Clone, Copy, Debug, PartialEq, Eq)]
pub(crate) struct Pair {
    pub a: u64,
    pub b: u64,
}

impl Pair {
    pub(crate) fn turned(self) -> Pair {
        Pair {
            a: self.b,
            b: self.a,
        }
    }
}

impl fmt::Display for Pair {
    fn fmt<W: fmt::Write>(&self, f: &mut fmt::Formatter<W>) -> fmt::Result {
        let Pair { a, b } = *self;
        write!(f, "{a} before {b}")
    }
}

#[derive(Drop)]
pub(crate) enum Saying {
    Comes(u64),
    Goes(u64),
    Link(Pair),
    Unlink(Pair),
    Places(Pair),
    Several(Vec<Pair>),
    Anew,
}

impl fmt::Display for Saying {
    fn fmt<W: fmt::Write>(&self, f: &mut fmt::Formatter<W>) -> fmt::Result {
        match self {
            Saying::Comes(card) => write!(f, "{card} comes"),
            Saying::Goes(card) => write!(f, "{card} goes"),
            Saying::Link(pair) => write!(f, "{pair}"),
            Saying::Unlink(pair) => {
                let Pair { a, b } = *pair;
                write!(f, "{a} needn't stand before {b}")
            }
            Saying::Places(pair) => {
                let Pair { a, b } = *pair;
                write!(f, "the places of {a} and {b}")
            }
            Saying::Several(pairs) => {
                let n = pairs.len();
                write!(f, "{n} links at once: ")?;
                let pairs = Listed(pairs.as_slice());
                write!(f, "{pairs}")
            }
            Saying::Anew => write!(f, "the row made anew"),
        }
    }
}

// Links, one after the other.
#[derive(Clone, Copy)]
pub(crate) struct Listed<'a>(pub &'a [Pair]);

impl<'a> fmt::Display for Listed<'a> {
    fn fmt<W: fmt::Write>(&self, f: &mut fmt::Formatter<W>) -> fmt::Result {
        for (i, pair) in self.0.iter().enumerate() {
            if i > 0 {
                write!(f, ", ")?;
            }
            write!(f, "{pair}")?;
        }
        Ok(())
    }
}

// Cards, from the left.
#[derive(Clone, Copy)]
pub(crate) struct Cards<'a>(pub &'a [u64]);

impl<'a> fmt::Display for Cards<'a> {
    fn fmt<W: fmt::Write>(&self, f: &mut fmt::Formatter<W>) -> fmt::Result {
        for (i, card) in self.0.iter().enumerate() {
            if i > 0 {
                write!(f, " ")?;
            }
            write!(f, "{card}")?;
        }
        Ok(())
    }
}
