// Several links are said at once, or the row is made anew.
ghost use Rattle.std.specs.Prelude.{◌≡◌, ◌≤◌, length, take};
ghost use Rattle.keeper.specs.Answers.{Gives, as_told};
ghost use Rattle.batch.specs.Own.{said_anew};
ghost use Rattle.batch.specs.Saying.{told_span, part_aside, undone, brought, rearranged, said_several};

use crate::checking::{all_there, repeats, span_of};
use crate::joining::{join_all, take_out};
use crate::layout::BATCH;
use crate::seating::Span;
use crate::tidying::tidy;
use keeper::{Act, Event, Output, Pending, Reason, Telling, hear};
use memory::Memory;
use order::{LINKS, Link, Refusal};
use row::pack;

// Tells the part of the row: it is noted as still to come, and the keeper goes on with it.
#[tactic(auto, unfolding(keeper::specs::Own::answer, crate::specs::Saying::noting))]
fn tell_span(
    memory: &mut Memory,
    span: Span,
    telling: Telling,
    out: &mut Output,
) -> Result<Act, Reason>
    ensures { Gives (as_told telling (told_span memory.old span)) out.old result memory.new out.new }
{
    let more = Pending::More {
        from: span.low,
        to: span.high,
    };
    more.note(memory);
    hear(memory, Event::Next, telling, out)
}

// Links that are said at once, and the part of the row that may change for them; none, if the row keeps them already.
#[derive(Clone, Copy)]
struct Several<'a> {
    links: &'a [Link],
    span: Option<Span>,
}

impl<'a> Several<'a> {
    // The first n of the links.
    fn front(self, n: usize) -> Several<'a>
        requires { n ≤ length self.links.now }
        ensures links { result.links.now ≡ take n self.entry.links.now }
        ensures span { result.span ≡ self.entry.span }
    {
        Several {
            links: &self.links[..n],
            span: self.span,
        }
    }

    // Puts the part of the row aside.
    #[tactic(auto, unfolding(crate::specs::Saying::part_aside))]
    fn save(self, memory: &mut Memory)
        ensures { memory.new ≡ part_aside memory.old self.entry.span }
    {
        if let Some(span) = self.span {
            span.save(memory);
        }
    }

    // Takes the links out again, and seats the part of the row as it was.
    #[tactic(auto, unfolding(crate::specs::Saying::undone))]
    fn undo(self, memory: &mut Memory)
        ensures { memory.new ≡ undone memory.old self.entry.links.now self.entry.span }
    {
        take_out(memory, self.links);
        if let Some(span) = self.span {
            span.reseat(memory);
        }
    }

    // All links are in: tells the part of the row that may have changed; but if there are too many, all is as it was.
    #[tactic(auto, using(keeper::proofs::Writing::writing), unfolding(keeper::specs::Answers::as_told, crate::specs::Saying::brought))]
    fn bring(self, memory: &mut Memory, telling: Telling, out: &mut Output) -> Result<Act, Reason>
        ensures { Gives (as_told telling (brought memory.old self.entry.links.now self.entry.span)) out.old result memory.new out.new }
    {
        if links::len(memory) > LINKS {
            self.undo(memory);
            return Err(Refusal::Full.into());
        }
        let Some(span) = self.span else {
            return Ok(Act::Done);
        };
        tell_span(memory, span, telling, out)
    }

    // Tries the links: the row is put right for all of them, or all is as it was.
    #[tactic(auto, using(keeper::proofs::Writing::writing), unfolding(keeper::specs::Answers::as_told, crate::specs::Saying::rearranged, crate::specs::Saying::by_trial))]
    fn rearrange(
        self,
        memory: &mut Memory,
        telling: Telling,
        out: &mut Output,
    ) -> Result<Act, Reason>
        ensures { Gives (as_told telling (rearranged memory.old self.entry.links.now self.entry.span)) out.old result memory.new out.new }
    {
        self.save(memory);
        match join_all(memory, self.links, out) {
            Ok(()) => self.bring(memory, telling, out),
            Err(round) => {
                self.front(round.count).undo(memory);
                Pending::Round.note(memory);
                Ok(Act::Shows(round.shown))
            }
        }
    }
}

// Says the links at once. Before they are tried the row is packed: from then on seats are places, and nobody comes or goes in between.
#[tactic(auto, using(keeper::proofs::Writing::writing), unfolding(keeper::specs::Answers::as_told, crate::specs::Saying::said_several))]
#[inline(never)]
pub(crate) fn say_several(
    memory: &mut Memory,
    batch: &[Link],
    telling: Telling,
    out: &mut Output,
) -> Result<Act, Reason>
    ensures { Gives (as_told telling (said_several memory.old batch.now)) out.old result memory.new out.new }
{
    if batch.len() > BATCH {
        return Err(Refusal::Full.into());
    }
    if !all_there(memory, batch) {
        return Err(Refusal::Missing.into());
    }
    if repeats(memory, batch) {
        return Err(Refusal::Exists.into());
    }
    pack(memory);
    let several = Several {
        links: batch,
        span: span_of(memory, batch),
    };
    several.rearrange(memory, telling, out)
}

// Makes the row anew, from the order of the cards' numbers, and tells all of it. A memory whose links go round isn't a keeper's.
#[tactic(auto, using(keeper::proofs::Writing::writing), unfolding(keeper::specs::Answers::as_told, crate::specs::Own::said_anew))]
#[inline(never)]
pub(crate) fn say_anew(
    memory: &mut Memory,
    telling: Telling,
    out: &mut Output,
) -> Result<Act, Reason>
    ensures { Gives (as_told telling (said_anew memory.old)) out.old result memory.new out.new }
{
    if !tidy(memory) {
        return Err(Reason::Unfit);
    }
    let all = Span::first(row::len(memory));
    tell_span(memory, all, telling, out)
}
