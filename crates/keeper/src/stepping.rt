// One step of the keeper. As in `linking`, each check hands on its value or leaves with the refusal, by `let .. else`.
ghost use Rattle.std.specs.Prelude.{◌≡◌, Ok};
ghost use Rattle.row.specs.Moves.{came};
ghost use Rattle.keeper.specs.Answers.{Gives, Ends, as_told};
ghost use Rattle.keeper.specs.Own.{ended, left, shown_places, said, went_on, answer, own, StepSays};
ghost use Rattle.keeper.specs.Playing.{stepped, StepsTo};
ghost use Rattle.keeper.specs.Promise.{Whole};
ghost use Rattle.keeper.specs.Sister.{WholeIn};
ghost use Rattle.keeper.specs.Sized.{Fits};

use crate::event::{Act, Event, Reason, Telling};
use crate::layout::Output;
use crate::linking::{link, unlink};
use crate::pending::Pending;
use crate::telling::tell_part;
use command::Command;
use links::remove_all;
use memory::Memory;
use order::Refusal;
use row::{comes, goes, place_of};

// A card comes.
#[inline(never)]
fn arrive(memory: &mut Memory, card: u64) -> Result<Act, Reason>
    ensures { Ends (ended (came memory.old card).answer (came memory.old card).memory) result memory.new }
{
    comes(memory, card)?;
    Ok(Act::Done)
}

// A card goes, and its links with it.
#[inline(never)]
fn leave(memory: &mut Memory, card: u64) -> Result<Act, Reason>
    ensures { Ends (left memory.old card) result memory.new }
{
    let slot = goes(memory, card)?;
    remove_all(memory, slot);
    Ok(Act::Done)
}

// Shows how many cards stand before each of the two.
#[inline(never)]
fn show_places(memory: &mut Memory, a: u64, b: u64, out: &mut Output) -> Result<Act, Reason>
    ensures { Gives (shown_places memory.old a b) out.old result memory.new out.new }
{
    let Some(first) = place_of(memory, a) else {
        return Err(Refusal::Missing.into());
    };
    let Some(second) = place_of(memory, b) else {
        return Err(Refusal::Missing.into());
    };
    out[0] = first;
    out[1] = second;
    Pending::Done.note(memory);
    Ok(Act::Shows(2))
}

// A command is said.
#[tactic(auto, using(crate::proofs::Writing::writing), unfolding(crate::specs::Answers::as_told, crate::specs::Own::said))]
#[inline(always)]
fn say(
    memory: &mut Memory,
    command: Command,
    telling: Telling,
    out: &mut Output,
) -> Result<Act, Reason>
    ensures { Gives (as_told telling (said memory.old command)) out.old result memory.new out.new }
{
    match command {
        Command::Comes(card) => arrive(memory, card),
        Command::Goes(card) => leave(memory, card),
        Command::Link(pair) => link(memory, pair, telling, out),
        Command::Unlink(pair) => unlink(memory, pair),
        Command::Places(a, b) => show_places(memory, a, b, out),
    }
}

// Goes on with the last command: more of the row, or its end.
#[tactic(auto, using(crate::proofs::Writing::writing), unfolding(crate::specs::Answers::as_told, crate::specs::Own::went_on, crate::specs::Answers::still_to_come))]
#[inline(never)]
fn go_on(memory: &mut Memory, telling: Telling, out: &mut Output) -> Result<Act, Reason>
    ensures { Gives (as_told telling (went_on memory.old)) out.old result memory.new out.new }
{
    let pending = Pending::of(memory);
    if let Some(Pending::More { from, to }) = pending {
        return Ok(tell_part(memory, from, to, telling, out));
    }
    Pending::Nothing.note(memory);
    match pending {
        Some(Pending::Done) => Ok(Act::Done),
        Some(Pending::Round) => Err(Refusal::Cycle.into()),
        _ => Err(Reason::Idle),
    }
}

// The answer to an event, where memory and output fit; what is told may be passed over.
#[tactic(auto, using(crate::proofs::Writing::writing), unfolding(crate::specs::Answers::as_told, crate::specs::Own::answer, crate::specs::Answers::still_to_come))]
#[inline(always)]
pub fn hear(
    memory: &mut Memory,
    event: Event,
    telling: Telling,
    out: &mut Output,
) -> Result<Act, Reason>
    ensures { Gives (as_told telling (answer memory.old event)) out.old result memory.new out.new }
{
    match event {
        Event::Next => go_on(memory, telling, out),
        Event::Said(_) if Pending::of(memory) != Some(Pending::Nothing) => { Err(Reason::Busy) }
        Event::Said(command) => say(memory, command, telling, out),
    }
}

// One step as `step` takes it, but that what is told may be passed over.
#[tactic(auto, using(crate::proofs::Fitting::fitting))]
#[inline(always)]
pub(crate) fn step_as(
    memory: &mut [u64],
    event: Event,
    telling: Telling,
    out: &mut [u64],
) -> Result<Act, Reason>
    ensures { StepsTo (stepped telling memory.old event out.old) result memory.new out.new }
{
    let Some(memory) = memory.as_mut_array() else {
        return Err(Reason::Unfit);
    };
    let Some(out) = out.first_chunk_mut() else {
        return Err(Reason::Unfit);
    };
    hear(memory, event, telling, out)
}

// One step: the answer to an event, the memory after it, and what is told or shown at the front of `out`. The engine whose steps these are meets the
// promise, and its firmer sister within three steps; whatever stands in the memory, its answers fit.
#[tactic(auto, using(crate::proofs::Wholly::engine_steps))]
pub fn step(memory: &mut [u64], event: Event, out: &mut [u64]) -> Result<Act, Reason>
    ensures says { StepSays memory.old event out.old result memory.new out.new }
    ensures whole { Whole own }
    ensures firmer { WholeIn 3 own }
    ensures fits { Fits own }
{
    step_as(memory, event, Telling::Written, out)
}
