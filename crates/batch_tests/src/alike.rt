// Links that are said at once, beside the same links said one after the other to another player.
use crate::board::Board;
use crate::cases::{Said, link};
use crate::player::Player;
use batch::Event;
use command::Command;
use keeper::Act;
use order::{Link, Refusal};
use std::process::Abort;
use std::test::Fail;

// How many cards there are. Two more are named, which aren't there.
const CARDS: u64 = 40;

// Numbers, each from the one before.
#[derive(Drop)]
struct Numbers(u64);

impl Numbers {
    // The next number, below 2 to the 31.
    fn next(&mut self) -> u64 {
        self.0 = self.0.wrapping_mul(48271) % 2147483647;
        self.0
    }

    fn next_link(&mut self) -> Link {
        let from = self.next() % (CARDS + 2);
        let to = self.next() % (CARDS + 2);
        link(from, to)
    }
}

// A card goes with its links, and comes again.
fn renew_card(rt: &impl Abort, player: &mut Player, card: u64) {
    player.command(rt, Command::Goes(card));
    player.command(rt, Command::Comes(card));
}

// Sees that both have the same row and the same links.
fn check_alike(rt: &(impl Abort + AllocGlobal), one: &Player, other: &Player) -> Result<(), Fail> {
    let board = other.board(rt)?;
    one.check_unchanged(rt, &board, &[])
}

#[test]
fn one_link_is_as_alone(rt: HostRuntime) -> Result<(), Fail> {
    let mut player = Player::with_cards(&rt, CARDS)?;
    let mut other = Player::with_cards(&rt, CARDS)?;
    let mut numbers = Numbers(1);
    for turn in 0..1000u64 {
        let link = numbers.next_link();
        let at_once = player.say(&rt, Event::Several, &[link])?;
        let alone = other.say(&rt, Event::Said(Command::Link(link)), &[])?;
        assert!(rt; at_once.as_slice() == alone.as_slice(), "turn {turn}");
        if let Some(Ok(Act::Shows(n))) = alone.first() {
            assert!(rt; player.shown(*n) == other.shown(*n), "turn {turn}");
        }
        check_alike(&rt, &player, &other)?;
        if turn % 8 == 0 {
            let card = numbers.next() % CARDS;
            renew_card(&rt, &mut player, card);
            renew_card(&rt, &mut other, card);
        }
    }
    Ok(())
}

// Why links are refused, unless they go round.
fn refusal(before: &Board, batch: &[Link]) -> Option<Refusal> {
    let is_there = |card| before.place_of(card).is_some();
    if !batch
        .iter()
        .all(|link| is_there(link.from) && is_there(link.to))
    {
        return Some(Refusal::Missing);
    }
    let mut counted = batch.iter().enumerate();
    counted
        .any(|(i, link)| before.links.contains(link) || batch[..i].contains(link))
        .then_some(Refusal::Exists)
}

// Says the links one after the other; whether all are done.
fn say_singly(
    rt: &(impl Abort + AllocGlobal),
    player: &mut Player,
    batch: &[Link],
) -> Result<bool, Fail> {
    for link in batch {
        let answers = player.say(rt, Event::Said(Command::Link(*link)), &[])?;
        if answers.last() != Some(&Ok(Act::Done)) {
            return Ok(false);
        }
    }
    Ok(true)
}

// Says links at once to the one, and one after the other to the other, who begins with the same board.
fn check_both(
    rt: &(impl Abort + AllocGlobal),
    player: &mut Player,
    other: &mut Player,
    batch: &[Link],
) -> Result<(), Fail> {
    other.copy_from(rt, player);
    let said = Said::at_once(rt, player, batch)?;
    if let Some(refusal) = refusal(said.before(), batch) {
        return said.check_refused(rt, player, refusal);
    }
    if !say_singly(rt, other, batch)? {
        said.check_round(rt, player)?;
        return Ok(());
    }
    let row = other.board(rt)?.row;
    said.check_done(rt, player, row.as_slice())
}

#[test]
fn several_are_as_one_after_the_other(rt: HostRuntime) -> Result<(), Fail> {
    let mut player = Player::with_cards(&rt, CARDS)?;
    let mut other = Player::with_cards(&rt, CARDS)?;
    let mut numbers = Numbers(1);
    for turn in 0..500u64 {
        let count = 1 + turn % 8;
        let batch: Vec<Link> = (0..count).map(|_| numbers.next_link()).collect(rt.alloc())?;
        check_both(&rt, &mut player, &mut other, batch.as_slice())?;
        renew_card(&rt, &mut player, turn % CARDS);
    }
    Ok(())
}
