// Keeps a board by a file of sayings.
#![tactic(auto)]

mod sayings;

ghost use Rattle.std.specs.Prelude.{IfOk};
ghost use Rattle.batch.specs.Engine.{said};
ghost use Rattle.batch.specs.Playing.{played};
ghost use Rattle.board.specs.Sayings.{meant};
ghost use Rattle.keeper.specs.Playing.{Went};

use anyhow::Context;
use batch::play;
use keeper::{MEMORY, OUTPUT, Played, read_row};
use order::Link;
use program::Program;
use sayings::{Saying, Sayings};
use std::alloc::AllocError;
use std::env;
use std::fmt::Write;
use std::process::ExitCode;

const BOARD: Program = Program {
    name: "board",
    help: HELP,
};

const HELP: &str = "\
usage: board FILE
       board < FILE

Keeps a board: cards in one row, and links that say which card has to stand
before which. The input is sayings, one after the other: a byte for what is
said, then the cards, numbers of two bytes each, the low byte first.
  0 a     card a comes, at the end of the row
  1 a     card a goes, and its links with it
  2 a b   a has to stand before b
  3 a b   a needn't stand before b any more
  4 a b   how many cards stand before a, and how many before b?
  5 n ..  n links at once, all or none: a byte with their number, 0 for 256,
          then two cards a b for each of them: a has to stand before b
  6       the row is made anew: again and again the smallest number comes next
          of the cards before which none that is left has to stand

One line is printed for each saying:
  4 3 1 6 5           the row, from the left, if it was done; an empty line if
                      there are no cards
  0 4                 the two places, if they were asked for
  refused 3           a card or a link that is spoken of isn't there
  refused 4           the card is there already, or a link was said already,
                      before or in the same saying
  refused 5: 5 2 3 6  the link would go round, or the links together: each
                      card in this row has to stand before the next one, and
                      the last before the first
  refused 7           there are 8,192 cards, or there would be more than
                      65,536 links
What is refused changes nothing.

A byte that says nothing, or an end inside a saying: the lines so far, then a
message on standard error that names the saying by its number, and status 1.
";

// The keeper's memory, the links that are said at once, what is told and shown, and the lines that are still to be printed.
#[derive(Drop)]
struct Player {
    memory: Vec<u64>,
    batch: Vec<Link>,
    out: Vec<u64>,
    lines: String,
}

impl Player {
    fn new(rt: &HostRuntime) -> anyhow::Result<Player> {
        Ok(Player {
            memory: vec![in rt.alloc(); 0u64; MEMORY]?,
            batch: Vec::new(rt.alloc()),
            out: vec![in rt.alloc(); 0u64; OUTPUT]?,
            lines: String::new(rt.alloc()),
        })
    }

    // Writes the first numbers of the output, with a space between.
    fn write_out(&mut self, n: usize) -> anyhow::Result<()> {
        for (i, number) in self.out.iter().take(n).enumerate() {
            if i > 0 {
                self.lines.push_str(" ")?;
            }
            write!(self.lines, "{number}")?;
        }
        Ok(())
    }

    // Plays a saying to its end.
    fn play(&mut self, saying: Saying) -> Result<Played, AllocError>
        ensures { IfOk result (λ how. Went (played self.old.memory.items (said (meant saying.entry)) self.old.out.items) how self.new.memory.items self.new.out.items) }
    {
        let event = saying.event(&mut self.batch)?;
        Ok(play(
            self.memory.as_mut_slice(),
            event,
            self.batch.as_slice(),
            self.out.as_mut_slice(),
        ))
    }

    // Plays a saying, and writes the line that answers it.
    fn answer(&mut self, saying: Saying) -> anyhow::Result<()> {
        let played = self.play(saying)?;
        let n = match played.outcome {
            Err(reason) => {
                let number = u64::from(reason);
                let way = if played.shown > 0 { ": " } else { "" };
                write!(self.lines, "refused {number}{way}")?;
                played.shown
            }
            Ok(()) if played.shown > 0 => played.shown,
            Ok(()) => read_row(self.memory.as_slice(), self.out.as_mut_slice()),
        };
        self.write_out(n as usize)?;
        self.lines.push_str("\n")?;
        Ok(())
    }

    // Prints the lines, and forgets them.
    fn print(&mut self, rt: &HostRuntime) -> anyhow::Result<()> {
        rt.print(self.lines.as_str())?;
        self.lines.clear();
        Ok(())
    }
}

// Plays all sayings; an error names the saying by its number, counted from 1.
fn play_all(rt: &HostRuntime, player: &mut Player, bytes: &[u8]) -> anyhow::Result<()> {
    for (number, saying) in (1u64..).zip(Sayings::of(bytes)) {
        player.answer(saying.context(format_args!("saying {number}"))?)?;
        if player.lines.len() > 65536 {
            player.print(rt)?;
        }
    }
    Ok(())
}

fn play_bytes(rt: &HostRuntime, bytes: &[u8]) -> anyhow::Result<()> {
    let mut player = Player::new(rt)?;
    let played = play_all(rt, &mut player, bytes);
    player.print(rt)?;
    played
}

fn main(rt: HostRuntime) -> ExitCode {
    BOARD.run(&rt, env::args(&rt), play_bytes)
}
