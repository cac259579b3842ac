// What is said to a memory.
use crate::dice::Dice;
use crate::plausible::card_of;
use batch::Event;
use command::Command;
use keeper::Pending;
use memory::Memory;
use order::{CARDS, Link};
use row::{IDS, SLOTS, len};
use std::alloc::AllocError;

// A card that stands in the row, mostly; or one of some bucket, or with a small number, or any.
fn card(memory: &Memory, dice: &mut Dice) -> u64 {
    match dice.below(12) {
        0 => dice.any(),
        1 => dice.below(CARDS),
        2 => card_of(dice.below(CARDS)),
        _ => {
            let place = dice.below(len(memory).clamp(1, CARDS));
            IDS.get(memory, SLOTS.get(memory, place))
        }
    }
}

fn link(memory: &Memory, dice: &mut Dice) -> Link {
    Link {
        from: card(memory, dice),
        to: card(memory, dice),
    }
}

// Puts links into the batch: none, a few, or up to so many.
fn put_links(
    memory: &Memory,
    most: u64,
    batch: &mut Vec<Link>,
    dice: &mut Dice,
) -> Result<(), AllocError> {
    let n = match dice.below(3) {
        0 => dice.below(4),
        1 => dice.below(most.min(16).saturating_add(1)),
        _ => dice.below(most.saturating_add(1)),
    };
    batch.clear();
    for _link in 0..n {
        batch.push(link(memory, dice))?;
    }
    Ok(())
}

// An event of any kind; the links of several stand in the batch then.
fn any_event(
    memory: &Memory,
    most: u64,
    batch: &mut Vec<Link>,
    dice: &mut Dice,
) -> Result<Event, AllocError> {
    Ok(match dice.below(24) {
        0..=1 => Event::Said(Command::Comes(card(memory, dice))),
        2..=4 => Event::Said(Command::Goes(card(memory, dice))),
        5..=10 => Event::Said(Command::Link(link(memory, dice))),
        11..=12 => Event::Said(Command::Unlink(link(memory, dice))),
        13..=14 => {
            let Link { from, to } = link(memory, dice);
            Event::Said(Command::Places(from, to))
        }
        15..=20 => {
            put_links(memory, most, batch, dice)?;
            Event::Several
        }
        21 => Event::Anew,
        _ => Event::Next,
    })
}

// An event of any kind, with at most so many links; mostly `Next`, if anything is pending.
pub(crate) fn drawn(
    memory: &Memory,
    most: u64,
    batch: &mut Vec<Link>,
    dice: &mut Dice,
) -> Result<Event, AllocError> {
    if Pending::of(memory) != Some(Pending::Nothing) && dice.below(4) > 0 {
        return Ok(Event::Next);
    }
    any_event(memory, most, batch, dice)
}

pub(crate) const NAMES: [&str; 8] = [
    "comes", "goes", "link", "unlink", "places", "several", "anew", "next",
];

// The one of the names that an event has.
pub(crate) fn name(event: Event) -> &'static str {
    match event {
        Event::Said(Command::Comes(_)) => "comes",
        Event::Said(Command::Goes(_)) => "goes",
        Event::Said(Command::Link(_)) => "link",
        Event::Said(Command::Unlink(_)) => "unlink",
        Event::Said(Command::Places(..)) => "places",
        Event::Several => "several",
        Event::Anew => "anew",
        Event::Next => "next",
    }
}
