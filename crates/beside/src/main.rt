// Says the same to the keeper and to a slow board, by chance, and compares what comes of it.
#![tactic(auto)]

mod answer;
mod board;
mod comparing;
mod counts;
mod drawing;
mod following;
mod leading;
mod lines;
mod mood;
mod numbers;
mod player;
mod refusing;
mod reporting;
mod rows;
mod saying;
mod trial;
mod words;

use anyhow::{anyhow, bail};
use numbers::Numbers;
use program::Program;
use std::env::Args;
use std::process::ExitCode;
use std::{env, io};
use trial::Trial;
use words::{Wish, wish_of};

const BESIDE: Program = Program {
    name: "beside",
    help: HELP,
};

const HELP: &str = "\
usage: beside SEED COUNT

Says COUNT random sayings to the proved keeper and to a slow board beside it,
which is written to be plain and looks through everything, and compares what
comes of each: whether it is done or refused, and why; the row; the part of the
row that is told; the places and the ways that are shown. The sayings depend on
SEED alone. Three of four are about a board of at most six cards, where all rows
are tried for a link that goes backward; the others about one of at most seventy.

If all comes out the same, what was seen is printed, for each of the two boards:
  done, moved, refused 3 ..    of each kind of saying, how many were done with no
                               card moved, done with some moved, and refused
  ways shown                   5: 12 is twelve ways of five cards
  most cards at once           and most links at once
  most links gone ..           when so many are gone, the keeper clears up by itself
  step by step                 how many weren't played in one go, and of how many
                               of these some of the row was told
  out of turn                  how often to go on was said with nothing pending,
                               which is refused by 1, and something else while
                               something was pending, which is refused by 2
  rows tried                   to see which one is right

If something comes out otherwise, standard error says what was said, the row and
the links before, what was wanted and what came, and how to run it again just up
to that saying. The status is 1 then.
";

// How many cards there are at most on the small board and on the large one.
const FEW: u64 = 6;

const MANY: u64 = 70;

fn say_all(rt: &HostRuntime, seed: u64, count: u64) -> anyhow::Result<()> {
    let mut small = Trial::of(rt.alloc(), FEW)?;
    let mut large = Trial::of(rt.alloc(), MANY)?;
    let mut numbers = Numbers::of(seed);
    for number in 1..=count {
        let trial = if number % 4 == 0 {
            &mut large
        } else {
            &mut small
        };
        if let Some(difference) = trial.say(&mut numbers)? {
            trial.report(rt, &difference)?;
            bail!("saying {number} came out otherwise; again: beside {seed} {number}");
        }
    }
    println!(rt; "seed {seed}: {count} sayings, and no difference")?;
    small.print(rt)?;
    large.print(rt)?;
    Ok(())
}

fn obey(rt: &HostRuntime, words: io::Result<Args>) -> anyhow::Result<()> {
    match wish_of(words?).map_err(|e| anyhow!("{e}; see beside --help"))? {
        Wish::Help => Ok(rt.print(HELP)?),
        Wish::Sayings { seed, count } => say_all(rt, seed, count),
    }
}

fn main(rt: HostRuntime) -> ExitCode {
    BESIDE.end(&rt, obey(&rt, env::args(&rt)))
}
