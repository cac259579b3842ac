// A step that was taken.
use crate::kind::Kind;
use batch::Event;
use keeper::{Act, Reason};
use order::CARDS;
use std::fmt;
use std::time::Duration;

// From which memory, by what event with how many links, what was answered, and how long the processor took.
#[derive(Clone, Copy)]
pub(crate) struct Taken {
    pub number: u64,
    pub seed: u64,
    pub kind: Kind,
    pub event: Event,
    pub links: usize,
    pub answer: Result<Act, Reason>,
    pub took: Duration,
}

impl Taken {
    // Whether what was answered fits the row and the output.
    pub(crate) fn fits(&self) -> bool {
        match self.answer {
            Ok(Act::Tells(place, n)) => place <= CARDS && n <= CARDS - place,
            Ok(Act::Shows(n)) => n <= CARDS,
            _ => true,
        }
    }
}

impl fmt::Display for Taken {
    fn fmt<W: fmt::Write>(&self, f: &mut fmt::Formatter<W>) -> fmt::Result {
        let Taken {
            number,
            seed,
            kind,
            event,
            links,
            answer,
            took,
        } = *self;
        let kind = kind.name();
        write!(
            f,
            "{took:?}, memory {number} ({kind}; 'garbage {seed} 1'), {event:?}"
        )?;
        if event == Event::Several {
            write!(f, " of {links} links")?;
        }
        write!(f, ": {answer:?}")
    }
}
