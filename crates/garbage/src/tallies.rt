// The single numbers of a memory, so that it isn't refused at once.
use crate::dice::Dice;
use keeper::Pending;
use links::{ENTRIES, LIVE, USED};
use memory::Memory;
use order::{CARDS, LINKS};
use row::{COUNT, ENDING, FREE, FRESH, SEATS_MOST};

// A small number, mostly; or one below a limit, at it, near it, or any.
fn about(limit: u64, dice: &mut Dice) -> u64 {
    match dice.below(48) {
        0 => limit,
        1 => limit.saturating_add(1),
        2 => dice.any(),
        3..=10 => dice.below(limit),
        _ => dice.below(256),
    }
}

// Something that may be pending; mostly nothing.
fn pending(dice: &mut Dice) -> Pending {
    match dice.below(8) {
        0 => Pending::Done,
        1 => Pending::Round,
        2 => Pending::More {
            from: about(CARDS, dice),
            to: about(CARDS, dice),
        },
        _ => Pending::Nothing,
    }
}

pub(crate) fn set_tallies(memory: &mut Memory, dice: &mut Dice) {
    for (tally, limit) in [
        (COUNT, CARDS),
        (ENDING, SEATS_MOST),
        (FRESH, CARDS),
        (FREE, CARDS),
        (LIVE, LINKS),
        (USED, ENTRIES),
    ] {
        tally.set(memory, 0, about(limit, dice));
    }
    pending(dice).note(memory);
}
