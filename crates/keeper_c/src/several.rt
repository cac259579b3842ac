// Several links at once, and the row made anew.
ghost use Rattle.std.specs.Prelude.{[]};
ghost use Rattle.batch.specs.declared.event.Event.TheVariants.{Several, Anew};
ghost use Rattle.batch.specs.Engine.{heard};
ghost use Rattle.batch.specs.Own.{own};
ghost use Rattle.batch.specs.PlayLaws.{Plays, PlaysShows};
ghost use Rattle.batch.specs.Playing.{played};
ghost use Rattle.batch.specs.Promise.{WholeIn};
ghost use Rattle.keeper_c.specs.Answers.{CameTo};

use crate::answer::KeeperAnswer;
use batch::{Event, play};
use order::Link;

// All the links hold, or none.
#[unsafe(no_mangle)]
pub extern "C" fn keeper_several(
    memory: &mut [u64],
    links: &[Link],
    out: &mut [u64],
) -> KeeperAnswer
    ensures went { CameTo (played memory.old (heard Several links.now) out.old) result memory.new out.new }
    ensures whole { WholeIn 3 own }
    ensures right { Plays }
    ensures shows { PlaysShows }
{
    KeeperAnswer::of(play(memory, Event::Several, links, out))
}

// The row is made anew, by the rule.
#[unsafe(no_mangle)]
pub extern "C" fn keeper_anew(memory: &mut [u64], out: &mut [u64]) -> KeeperAnswer
    ensures went { CameTo (played memory.old (heard Anew []) out.old) result memory.new out.new }
    ensures whole { WholeIn 3 own }
    ensures right { Plays }
    ensures shows { PlaysShows }
{
    KeeperAnswer::of(play(memory, Event::Anew, &[], out))
}
