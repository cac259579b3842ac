// One step of the keeper that also takes several links at once, and makes the row anew.
ghost use Rattle.keeper.specs.Answers.{Gives, as_told};
ghost use Rattle.batch.specs.Engine.{heard};
ghost use Rattle.keeper.specs.Playing.{StepsTo};
ghost use Rattle.batch.specs.Own.{answer, own, StepSays};
ghost use Rattle.batch.specs.Playing.{stepped};
ghost use Rattle.batch.specs.Promise.{WholeIn, Fits};

use crate::event::Event;
use crate::saying::{say_anew, say_several};
use keeper::{Act, Output, Pending, Reason, Telling};
use memory::Memory;
use order::Link;

// The answer to an event.
#[tactic(auto, using(keeper::proofs::Writing::writing), unfolding(keeper::specs::Answers::as_told, crate::specs::Own::answer, crate::specs::Own::when_idle, keeper::specs::Answers::still_to_come))]
#[inline(always)]
fn hear(
    memory: &mut Memory,
    event: Event,
    batch: &[Link],
    telling: Telling,
    out: &mut Output,
) -> Result<Act, Reason>
    ensures { Gives (as_told telling (answer memory.old (heard event batch.now))) out.old result memory.new out.new }
{
    let idle = Pending::of(memory) == Some(Pending::Nothing);
    match event {
        Event::Said(command) => keeper::hear(memory, keeper::Event::Said(command), telling, out),
        Event::Next => keeper::hear(memory, keeper::Event::Next, telling, out),
        Event::Several if idle => say_several(memory, batch, telling, out),
        Event::Anew if idle => say_anew(memory, telling, out),
        Event::Several | Event::Anew => Err(Reason::Busy),
    }
}

// One step as `step` takes it, but that what is told may be passed over.
#[tactic(auto, using(crate::proofs::PlayedRun::fitting))]
#[inline(always)]
pub(crate) fn step_as(
    memory: &mut [u64],
    event: Event,
    batch: &[Link],
    telling: Telling,
    out: &mut [u64],
) -> Result<Act, Reason>
    ensures { StepsTo (stepped telling memory.old (heard event batch.now) out.old) result memory.new out.new }
{
    let Some(memory) = memory.as_mut_array() else {
        return Err(Reason::Unfit);
    };
    let Some(out) = out.first_chunk_mut() else {
        return Err(Reason::Unfit);
    };
    hear(memory, event, batch, telling, out)
}

// One step: the answer to an event, the memory after it, and what is told or shown at the front of `out`. The batch is read only for `Several`. The
// engine whose steps these are meets the promise within three steps; whatever stands in the memory, its answers fit.
#[tactic(auto, using(crate::proofs::PlayedRun::beginnings))]
pub fn step(
    memory: &mut [u64],
    event: Event,
    batch: &[Link],
    out: &mut [u64],
) -> Result<Act, Reason>
    ensures says { StepSays memory.old (heard event batch.now) out.old result memory.new out.new }
    ensures whole { WholeIn 3 own }
    ensures fits { Fits own }
{
    step_as(memory, event, batch, Telling::Written, out)
}
