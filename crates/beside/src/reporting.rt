// What came otherwise, on standard error.
use crate::answer::{Answer, Part};
use crate::comparing::Due;
use crate::player::Player;
use crate::refusing::Why;
use crate::saying::{Cards, Listed, Saying};
use std::{fmt, io};

// A part of the row, if there is one.
#[derive(Clone, Copy)]
struct Told(Option<Part>);

impl fmt::Display for Told {
    fn fmt<W: fmt::Write>(&self, f: &mut fmt::Formatter<W>) -> fmt::Result {
        match self.0 {
            Some(Part { from, to }) => write!(f, "from place {from} up to and without {to}"),
            None => write!(f, "nothing"),
        }
    }
}

impl Due {
    // What was said, of what board, and what was wanted.
    pub(crate) fn report(&self, rt: &HostRuntime) -> io::Result<()> {
        let saying = &self.saying;
        let before = Cards(self.before.row.as_slice());
        let links = Listed(self.before.links.as_slice());
        let after = Cards(self.after.row.as_slice());
        let told = Told(self.part());
        eprintln!(rt; "said:             {saying}")?;
        eprintln!(rt; "row before:       {before}")?;
        eprintln!(rt; "links before:     {links}")?;
        match (self.refused, saying) {
            (Some(Why::Round), _) => eprintln!(rt; "wanted:           refused 5, and a way")?,
            (Some(why), _) => {
                let number = u64::from(why);
                eprintln!(rt; "wanted:           refused {number}")?;
            }
            (None, Saying::Places(_)) => eprintln!(rt; "wanted:           the two places")?,
            (None, _) => eprintln!(rt; "wanted:           done")?,
        }
        eprintln!(rt; "row wanted:       {after}")?;
        eprintln!(rt; "to be told:       {told}")
    }
}

impl Answer {
    // What came.
    pub(crate) fn report(&self, rt: &HostRuntime) -> io::Result<()> {
        let shown = Cards(self.shown.as_slice());
        let told = Told(self.told);
        match self.end {
            Some(Ok(())) => eprintln!(rt; "came:             done")?,
            Some(Err(number)) => eprintln!(rt; "came:             refused {number}")?,
            None => eprintln!(rt; "came:             no end within three steps")?,
        }
        eprintln!(rt; "shown:            {shown}")?;
        eprintln!(rt; "told:             {told}")
    }
}

impl Player {
    // The row then.
    pub(crate) fn report(&self, rt: &HostRuntime) -> io::Result<()> {
        let read = Cards(self.read());
        let kept = Cards(self.kept());
        eprintln!(rt; "row as read:      {read}")?;
        eprintln!(rt; "row as told:      {kept}")
    }
}
