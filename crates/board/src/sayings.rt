// Sayings as bytes: a byte for what is said, then the cards, numbers of two bytes each, the low byte first; before several links a byte with their number.
ghost use Rattle.std.specs.Prelude.{◌≡◌, ◌*◌, ◌+◌, length, drop, ok_or, IfOk, OnOk};
ghost use Rattle.std.specs.Iterator.{at_most};
ghost use Rattle.batch.specs.Engine.{heard, said};
ghost use Rattle.board.specs.Sayings.{card_at, cards_at, several_in, how_many, link_of, links_read, meant, meant_by, said_first, behind_first, Next};
ghost use Rattle.board.specs.declared.sayings.SayingError.TheVariants.{Cut};

use batch::Event;
use command::Command;
use order::Link;
use std::alloc::AllocError;
use thiserror::Error;

// What is read: a command; several links at once, four bytes to each; or that the row is to be made anew.
#[derive(Clone, Copy)]
pub(crate) enum Saying<'a> {
    One(Command),
    Several(&'a [[u8; 4]]),
    Anew,
}

// The link that four bytes spell.
fn link_of(bytes: &[u8; 4]) -> Link
    ensures { result ≡ link_of bytes.now }
{
    let [a, b, c, d] = *bytes;
    Link {
        from: u64::from(u16::from_le_bytes([a, b])),
        to: u64::from(u16::from_le_bytes([c, d])),
    }
}

// How many links a byte says: a 0 stands for 256.
fn how_many(count: u8) -> usize
    ensures { result ≡ how_many count }
{
    match count {
        0 => 256,
        n => usize::from(n),
    }
}

impl<'a> Saying<'a> {
    // The event that says it; several links are put into the batch, in place of what was there.
    pub(crate) fn event(self, batch: &mut Vec<Link>) -> Result<Event, AllocError>
        ensures { IfOk result (λ event. heard event batch.new.items ≡ said (meant self.entry)) }
    {
        Ok(match self {
            Saying::One(command) => Event::Said(command),
            Saying::Several(links) => {
                batch.clear();
                batch.extend(links.iter().map(link_of))?;
                Event::Several
            }
            Saying::Anew => Event::Anew,
        })
    }
}

// Why no saying stands at the front of the bytes.
#[derive(Debug, Drop, Error)]
pub(crate) enum SayingError {
    #[error("the byte {0} says nothing")]
    Unknown(u8),
    #[error("the input ends inside it")]
    Cut,
}

// The sayings that the bytes spell, one after the other. Behind one that can't be read comes nothing.
#[derive(Drop)]
pub(crate) struct Sayings<'a> {
    rest: &'a [u8],
}

impl<'a> Sayings<'a> {
    pub(crate) fn of(bytes: &'a [u8]) -> Sayings<'a>
        ensures { result.rest.now ≡ bytes.now }
    {
        Sayings { rest: bytes }
    }

    // Takes a card from the front.
    fn card(&mut self) -> Result<u64, SayingError>
        ensures card { result ≡ ok_or (card_at self.old.rest.now 0) Cut }
        ensures rest { OnOk result (self.new.rest.now ≡ drop 2 self.old.rest.now) }
    {
        let (number, rest) = self.rest.split_first_chunk::<2>().ok_or(SayingError::Cut)?;
        self.rest = rest;
        Ok(u64::from(u16::from_le_bytes(*number)))
    }

    // Takes two cards from the front.
    fn link(&mut self) -> Result<Link, SayingError>
        ensures link { result ≡ ok_or (cards_at self.old.rest.now 0) Cut }
        ensures rest { OnOk result (self.new.rest.now ≡ drop 4 self.old.rest.now) }
    {
        let (bytes, rest) = self.rest.split_first_chunk::<4>().ok_or(SayingError::Cut)?;
        self.rest = rest;
        Ok(link_of(bytes))
    }

    // Takes several links from the front, behind a byte with their number.
    #[tactic(auto, using(crate::proofs::Several::reading))]
    fn links(&mut self) -> Result<&'a [[u8; 4]], SayingError>
        ensures links { links_read result ≡ ok_or (several_in self.old.rest.now) Cut }
        ensures rest { IfOk result (λ links. self.new.rest.now ≡ drop (1 + 4 * length links.now) self.old.rest.now) }
    {
        let count = self.rest.split_off_first().ok_or(SayingError::Cut)?;
        let n = how_many(*count);
        let (bytes, rest) = self.rest.split_at_checked(4 * n).ok_or(SayingError::Cut)?;
        self.rest = rest;
        let (links, _none) = bytes.as_chunks::<4>();
        Ok(links)
    }

    // Takes a saying from the front.
    fn saying(&mut self) -> Result<Saying<'a>, SayingError>
        ensures saying { meant_by result ≡ said_first self.old.rest.now }
        ensures rest { OnOk result (self.new.rest.now ≡ behind_first self.old.rest.now) }
    {
        let kind = self.rest.split_off_first().ok_or(SayingError::Cut)?;
        match *kind {
            0 => Ok(Saying::One(Command::Comes(self.card()?))),
            1 => Ok(Saying::One(Command::Goes(self.card()?))),
            2 => Ok(Saying::One(Command::Link(self.link()?))),
            3 => Ok(Saying::One(Command::Unlink(self.link()?))),
            4 => {
                let Link { from, to } = self.link()?;
                Ok(Saying::One(Command::Places(from, to)))
            }
            5 => Ok(Saying::Several(self.links()?)),
            6 => Ok(Saying::Anew),
            unknown => Err(SayingError::Unknown(unknown)),
        }
    }
}

impl<'a> Iterator for Sayings<'a> {
    type Item = Result<Saying<'a>, SayingError>;

    ghost next_gives = { λ s r t. Next s.rest.now r t.rest.now };

    ghost remaining = { λ s. at_most (length s.rest.now) };

    fn next(&mut self) -> Option<Result<Saying<'a>, SayingError>> {
        if self.rest.is_empty() {
            return None;
        }
        let saying = self.saying();
        if saying.is_err() {
            self.rest = &[];
        }
        Some(saying)
    }
}
