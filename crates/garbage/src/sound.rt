// A board that random sayings made.
use crate::bench::Bench;
use crate::dice::Dice;
use crate::plausible::card_of;
use batch::{Event, play};
use command::Command;
use memory::MEMORY;
use order::CARDS;
use std::alloc::AllocError;

fn say(bench: &mut Bench, event: Event) {
    let memory = bench.memory.as_mut_slice();
    let Some(memory) = memory.get_mut(..MEMORY) else {
        return;
    };
    let _ = play(
        memory,
        event,
        bench.batch.as_slice(),
        bench.out.as_mut_slice(),
    );
}

// How many cards come first: a few, some hundreds, or now and then as many as there may be.
fn how_many_cards(dice: &mut Dice) -> u64 {
    match dice.below(16) {
        0 => CARDS,
        1..=7 => dice.below(16),
        _ => dice.below(512),
    }
}

fn bring_cards(bench: &mut Bench, dice: &mut Dice) {
    for bucket in 0..how_many_cards(dice) {
        say(bench, Event::Said(Command::Comes(card_of(bucket))));
    }
}

// Makes the memory that of a board: cards come, and then anything is said, up to a hundred times.
pub(crate) fn play_some(bench: &mut Bench, dice: &mut Dice) -> Result<(), AllocError> {
    bench.memory.as_mut_slice().fill(0);
    bring_cards(bench, dice);
    for _saying in 0..dice.below(100) {
        let event = bench.draw(256, dice)?;
        say(bench, event);
    }
    Ok(())
}
