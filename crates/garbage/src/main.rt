// Takes steps from memories that mean no board.
#![tactic(auto)]

mod bench;
mod building;
mod circles;
mod counting;
mod dice;
mod events;
mod kind;
mod lengths;
mod plausible;
mod sound;
mod taken;
mod tallies;
mod trying;
mod words;
mod worst;

use anyhow::Context;
use program::Program;
use std::env;
use std::process::ExitCode;
use trying::try_all;
use words::{Wish, wish_of};
use worst::try_worst;

const GARBAGE: Program = Program {
    name: "garbage",
    help: HELP,
};

const HELP: &str = "\
usage: garbage SEED COUNT
       garbage worst

Takes steps of the keeper from COUNT memories of random numbers, most of which
mean no board: four random events to each memory. Memory i is made from the
number SEED + i alone, so 'garbage 7 1' makes the same as memory 2 of
'garbage 5 10'. The memories are
  random      all numbers below 2^64
  small       all numbers below 4, below 8,192 or below 73,985
  plausible   in each column numbers that may stand there
  dented      a board that random sayings made, then overwritten here and there
  circles     all chains go round through all entries
  misfit      too short or too long, or with too short an output
For each kind of memory and event one line says how often it was answered how:
that cards are told, or numbers shown, or that it is done, or by which number
it is refused. The slowest step is told on standard error.

A step that takes more than a second of the processor, or whose answer doesn't
fit what carries it, ends all with a message on standard error and status 1.

With the word 'worst' it takes the longest step that is known instead, from a
memory that is built for it, and prints how long that took.
";

fn obey(rt: &HostRuntime) -> anyhow::Result<()> {
    let wish = wish_of(env::args(rt)?).context(
        "the words are SEED COUNT, two numbers; see garbage --help",
    )?;
    match wish {
        Wish::Help => Ok(rt.print(HELP)?),
        Wish::Try { seed, count } => try_all(rt, seed, count),
        Wish::Worst => try_worst(rt),
    }
}

fn main(rt: HostRuntime) -> ExitCode {
    GARBAGE.end(&rt, obey(&rt))
}
