// A saying, played to its end.
ghost use Rattle.keeper.specs.Playing.{Went};
ghost use Rattle.batch.specs.Engine.{heard};
ghost use Rattle.batch.specs.Own.{own};
ghost use Rattle.batch.specs.PlayLaws.{Plays, PlaysShows};
ghost use Rattle.batch.specs.Playing.{played};
ghost use Rattle.batch.specs.Promise.{WholeIn};

use crate::event::Event;
use crate::stepping::step_as;
use keeper::{Played, Telling, play_on};
use order::Link;

// Says what the event says, and goes on until it's at its end; what is told is passed over. Three steps are enough, unless the memory isn't a keeper's. The
// batch is read only for `Several`. The steps are those of the engine that meets the promise; what is played is then done or refused as the board says, and
// the numbers shown stand at the front of the output.
#[tactic(auto, using(crate::proofs::PlayedRun::plays_first, crate::proofs::Wholly::whole_in_own, crate::proofs::PlayedRun::plays_right))]
#[inline(always)]
pub fn play(memory: &mut [u64], event: Event, batch: &[Link], out: &mut [u64]) -> Played
    ensures went { Went (played memory.old (heard event batch.now) out.old) result memory.new out.new }
    ensures whole { WholeIn 3 own }
    ensures right { Plays }
    ensures shows { PlaysShows }
{
    let answer = step_as(memory, event, batch, Telling::PassedOver, out);
    play_on(memory, answer, out)
}
