// Links come and go, and the row is put right for them.
use crate::cases::{done, link, refused, round, unlink};
use crate::player::Player;
use command::Command;
use order::Refusal;
use std::process::Abort;
use std::test::Fail;

// Whether cards stand in the row as they came, but for two that changed places.
fn have_changed_places(row: &[u64], one: u64, other: u64) -> bool {
    let due = (0..row.len() as u64).map(|place| {
        if place == one {
            other
        } else if place == other {
            one
        } else {
            place
        }
    });
    row.iter().copied().eq(due)
}

// Makes a link from each of these cards to the next one.
fn chain(rt: &impl Abort, player: &mut Player, first: u64, last: u64) -> Result<(), Fail> {
    for card in first..last {
        player.play(rt, done(link(card, card + 1)))?;
    }
    Ok(())
}

#[test]
fn said_twice_and_taken_back(rt: HostRuntime) -> Result<(), Fail> {
    let mut player = Player::with_cards(&rt, 3)?;
    player.play_all(
        &rt,
        &[
            done(link(2, 0)),
            refused(link(2, 0), Refusal::Exists),
            done(unlink(2, 0)),
            refused(unlink(2, 0), Refusal::Missing),
            done(link(2, 0)),
            round(link(0, 2), &[2, 0]),
        ],
    )?;
    assert!(rt; player.row() == [2, 1, 0].as_slice());
    Ok(())
}

#[test]
fn comes_again_without_links(rt: HostRuntime) -> Result<(), Fail> {
    let mut player = Player::with_cards(&rt, 3)?;
    player.play_all(
        &rt,
        &[
            done(link(0, 1)),
            done(link(1, 2)),
            round(link(2, 0), &[0, 1, 2]),
            done(Command::Goes(1)),
            done(Command::Comes(1)),
            refused(unlink(0, 1), Refusal::Missing),
            done(link(2, 0)),
            done(link(1, 2)),
            round(link(0, 1), &[1, 2, 0]),
        ],
    )?;
    assert!(rt; player.row() == [1, 2, 0].as_slice());
    Ok(())
}

#[test]
fn others_between_stay(rt: HostRuntime) -> Result<(), Fail> {
    let mut player = Player::with_cards(&rt, 100)?;
    chain(&rt, &mut player, 0, 9)?;
    chain(&rt, &mut player, 91, 99)?;
    player.play(&rt, done(link(90, 10)))?;
    assert!(rt; player.told() == 1 && have_changed_places(player.row(), 90, 10));
    Ok(())
}

#[test]
fn first_and_last_change_places(rt: HostRuntime) -> Result<(), Fail> {
    let mut player = Player::with_cards(&rt, 8192)?;
    player.play(&rt, done(link(8191, 0)))?;
    assert!(rt; player.told() == 2 && have_changed_places(player.row(), 8191, 0));
    Ok(())
}

#[test]
fn round_through_all(rt: HostRuntime) -> Result<(), Fail> {
    let mut player = Player::with_cards(&rt, 8192)?;
    chain(&rt, &mut player, 0, 8191)?;
    let way = player.row().to_vec(rt.alloc())?;
    player.play(&rt, round(link(8191, 0), way.as_slice()))?;
    assert!(rt; way.iter().copied().eq(0..8192));
    Ok(())
}

#[test]
fn halves_change_places(rt: HostRuntime) -> Result<(), Fail> {
    let mut player = Player::with_cards(&rt, 8192)?;
    chain(&rt, &mut player, 0, 4095)?;
    chain(&rt, &mut player, 4096, 8191)?;
    player.play(&rt, done(link(8191, 0)))?;
    let row = player.row();
    assert_eq!(rt; player.told(), 2);
    assert!(rt; row.iter().copied().eq((4096..8192).chain(0..4096)));
    Ok(())
}
