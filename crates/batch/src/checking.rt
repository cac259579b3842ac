// What is looked at before links are tried: whether their cards are there, whether one was said already, and which part of the row they name.
ghost use Rattle.std.specs.Prelude.{◌≡◌, ◌||◌, []};
ghost use Rattle.std.specs.List.{list_any};
ghost use Rattle.links.specs.Pairs.{joins};
ghost use Rattle.batch.specs.Checking.{all_found, known, repeated, widened, wider, spanned, no_span, span};

use crate::seating::Span;
use keeper::slots_of;
use memory::Memory;
use order::{CARDS, Link};
use row::seat_of;

// The seats from the first card that some links name to the last; and whether one of the links goes backward. One pass over the links finds both; the span
// is told only if one of them does.
#[derive(Clone, Copy)]
struct Named {
    span: Span,
    back: bool,
}

impl Named {
    // Of no links.
    const NONE: Named = Named {
        span: Span {
            low: CARDS,
            high: 0,
        },
        back: false,
    };

    // Widened to two seats, of one more link's first card and of its second.
    #[tactic(auto, unfolding(crate::specs::Checking::widened))]
    fn widened(self, first: u64, second: u64) -> Named
        ensures { result ≡ widened self first second }
    {
        Named {
            span: Span {
                low: self.span.low.min(first.min(second)),
                high: self.span.high.max(first.max(second).saturating_add(1)),
            },
            back: self.back || second <= first,
        }
    }
}

// Whether each card that a link names is there.
pub(crate) fn all_there(memory: &Memory, batch: &[Link]) -> bool
    ensures { result ≡ all_found memory.now batch.now }
{
    batch.iter().all(|link| slots_of(memory, *link).is_some())
}

// Whether the link was said already.
#[tactic(auto, unfolding(crate::specs::Checking::known))]
fn is_known(memory: &Memory, link: Link) -> bool
    ensures { result ≡ known memory.now link }
{
    slots_of(memory, link).is_some_and(|slots| links::find(memory, slots).is_some())
}

// Whether the link was said already, or is one of these.
fn is_said(memory: &Memory, before: &[Link], link: Link) -> bool
    ensures { result ≡ (known memory.now link || list_any (joins link) before.now) }
{
    is_known(memory, link) || before.contains(&link)
}

// Whether one of the links was said already, or stands in the batch twice.
pub(crate) fn repeats(memory: &Memory, batch: &[Link]) -> bool
    ensures { result ≡ repeated memory.now [] batch.now }
{
    batch
        .iter()
        .enumerate()
        .any(|(i, link)| is_said(memory, &batch[..i], *link))
}

// What is named, widened to the seats of a link's two cards.
#[tactic(auto, unfolding(crate::specs::Checking::wider))]
fn widen(memory: &Memory, link: Link, named: Named) -> Named
    ensures { result ≡ wider memory.now link named }
{
    let Some(slots) = slots_of(memory, link) else {
        return named;
    };
    named.widened(seat_of(memory, slots.from), seat_of(memory, slots.to))
}

// The part of the row from the first card that a link names to the last.
#[tactic(auto, unfolding(crate::specs::Checking::spanned))]
fn spanned(memory: &Memory, batch: &[Link]) -> Named
    ensures { result ≡ spanned memory.now batch.now no_span }
{
    batch
        .iter()
        .fold(Named::NONE, |named, link| widen(memory, *link, named))
}

// The part of the row that may change for the links: none, if the row keeps them already.
#[tactic(auto, unfolding(crate::specs::Checking::moving))]
pub(crate) fn span_of(memory: &Memory, batch: &[Link]) -> Option<Span>
    ensures { result ≡ span memory.now batch.now }
{
    let named = spanned(memory, batch);
    named.back.then_some(named.span)
}
