// Commands, and the row.
ghost use Rattle.keeper.specs.Playing.{row_read, read_count};
ghost use Rattle.std.specs.Prelude.{◌≡◌};
ghost use Rattle.order.specs.Board.{◌⟶◌};
ghost use Rattle.command.specs.declared.command.Command.TheVariants.{Comes, Goes, Link as Links, Unlink as Unlinks, Places};
ghost use Rattle.batch.specs.Engine.{said, one as commanded};
ghost use Rattle.batch.specs.Own.{own};
ghost use Rattle.batch.specs.PlayLaws.{Plays, PlaysShows};
ghost use Rattle.batch.specs.Playing.{played};
ghost use Rattle.batch.specs.Promise.{WholeIn};
ghost use Rattle.keeper_c.specs.Answers.{CameTo};

use crate::answer::KeeperAnswer;
use batch::{Event, play};
use command::Command;
use keeper::read_row;
use order::Link;

// A command is said to the engine that takes several links at once too, so that all functions are of one engine.
#[inline(always)]
fn say(memory: &mut [u64], command: Command, out: &mut [u64]) -> KeeperAnswer
    ensures went { CameTo (played memory.old (said (commanded command)) out.old) result memory.new out.new }
    ensures whole { WholeIn 3 own }
    ensures right { Plays }
    ensures shows { PlaysShows }
{
    KeeperAnswer::of(play(memory, Event::Said(command), &[], out))
}

// A card comes, at the end of the row.
#[unsafe(no_mangle)]
pub extern "C" fn keeper_comes(memory: &mut [u64], card: u64, out: &mut [u64]) -> KeeperAnswer
    ensures went { CameTo (played memory.old (said (commanded (Comes card))) out.old) result memory.new out.new }
    ensures whole { WholeIn 3 own }
    ensures right { Plays }
    ensures shows { PlaysShows }
{
    say(memory, Command::Comes(card), out)
}

// A card goes, and its links with it.
#[unsafe(no_mangle)]
pub extern "C" fn keeper_goes(memory: &mut [u64], card: u64, out: &mut [u64]) -> KeeperAnswer
    ensures went { CameTo (played memory.old (said (commanded (Goes card))) out.old) result memory.new out.new }
    ensures whole { WholeIn 3 own }
    ensures right { Plays }
    ensures shows { PlaysShows }
{
    say(memory, Command::Goes(card), out)
}

// `from` has to stand before `to`.
#[unsafe(no_mangle)]
pub extern "C" fn keeper_link(
    memory: &mut [u64],
    from: u64,
    to: u64,
    out: &mut [u64],
) -> KeeperAnswer
    ensures went { CameTo (played memory.old (said (commanded (Links (from ⟶ to)))) out.old) result memory.new out.new }
    ensures whole { WholeIn 3 own }
    ensures right { Plays }
    ensures shows { PlaysShows }
{
    say(memory, Command::Link(Link { from, to }), out)
}

// `from` needn't stand before `to`.
#[unsafe(no_mangle)]
pub extern "C" fn keeper_unlink(
    memory: &mut [u64],
    from: u64,
    to: u64,
    out: &mut [u64],
) -> KeeperAnswer
    ensures went { CameTo (played memory.old (said (commanded (Unlinks (from ⟶ to)))) out.old) result memory.new out.new }
    ensures whole { WholeIn 3 own }
    ensures right { Plays }
    ensures shows { PlaysShows }
{
    say(memory, Command::Unlink(Link { from, to }), out)
}

// How many cards stand before each of the two.
#[unsafe(no_mangle)]
pub extern "C" fn keeper_places(
    memory: &mut [u64],
    one: u64,
    other: u64,
    out: &mut [u64],
) -> KeeperAnswer
    ensures went { CameTo (played memory.old (said (commanded (Places one other))) out.old) result memory.new out.new }
    ensures whole { WholeIn 3 own }
    ensures right { Plays }
    ensures shows { PlaysShows }
{
    say(memory, Command::Places(one, other), out)
}

// Writes the row to the front of `row`; says how many cards it has.
#[unsafe(no_mangle)]
pub extern "C" fn keeper_row(memory: &[u64], row: &mut [u64]) -> u64
    ensures is { result ≡ read_count memory.now row.old }
    ensures row { row.new ≡ row_read memory.now row.old }
{
    read_row(memory, row)
}
