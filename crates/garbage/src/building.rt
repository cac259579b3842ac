// Memories of each kind.
use crate::bench::Bench;
use crate::circles;
use crate::dice::Dice;
use crate::kind::Kind;
use crate::plausible::{dent, fill_all};
use crate::sound::play_some;
use crate::tallies::set_tallies;
use links::OUT;
use memory::Memory;
use order::CARDS;
use std::alloc::AllocError;

fn fill_random(memory: &mut [u64], dice: &mut Dice) {
    for number in memory {
        *number = dice.any();
    }
}

fn fill_below(memory: &mut [u64], n: u64, dice: &mut Dice) {
    for number in memory {
        *number = dice.below(n);
    }
}

fn fill_small(memory: &mut [u64], dice: &mut Dice) {
    let n = match dice.below(3) {
        0 => 4,
        1 => CARDS,
        _ => OUT.cells.size,
    };
    fill_below(memory, n, dice);
}

// Puts numbers here and there, from a few to many.
fn dent_some(memory: &mut Memory, dice: &mut Dice) {
    let most = match dice.below(3) {
        0 => 8,
        1 => 256,
        _ => 8192,
    };
    for _dent in 0..dice.below(most) {
        dent(memory, dice);
    }
}

fn fill_dented(bench: &mut Bench, dice: &mut Dice) -> Result<(), AllocError> {
    play_some(bench, dice)?;
    let Some(memory) = bench.memory.as_mut_slice().first_chunk_mut() else {
        return Ok(());
    };
    dent_some(memory, dice);
    if dice.below(4) == 0 {
        set_tallies(memory, dice);
    }
    Ok(())
}

// Fills the memory anew.
pub(crate) fn build(bench: &mut Bench, kind: Kind, dice: &mut Dice) -> Result<(), AllocError> {
    let memory = bench.memory.as_mut_slice();
    match kind {
        Kind::Random | Kind::Misfit => fill_random(memory, dice),
        Kind::Small => fill_small(memory, dice),
        Kind::Plausible => {
            fill_below(memory, CARDS, dice);
            if let Some(memory) = memory.first_chunk_mut() {
                fill_all(memory, dice);
            }
        }
        Kind::Dented => return fill_dented(bench, dice),
        Kind::Circles => {
            circles::fill(bench, dice);
            return Ok(());
        }
    }
    let Some(memory) = memory.first_chunk_mut() else {
        return Ok(());
    };
    if dice.below(8) > 0 {
        set_tallies(memory, dice);
    }
    Ok(())
}
