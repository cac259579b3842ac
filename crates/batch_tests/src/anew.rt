// The row made anew by the rule.
use crate::cases::link;
use crate::player::Player;
use batch::Event;
use keeper::{Act, Reason};
use order::Link;
use std::process::Abort;
use std::test::Fail;

// Sees that the row made anew is this one, told as it has to be, and that the links stay.
fn check_anew(
    rt: &(impl Abort + AllocGlobal),
    player: &mut Player,
    row: &[u64],
    answers: &[Result<Act, Reason>],
) -> Result<(), Fail> {
    let before = player.board(rt)?;
    assert!(rt; player.say(rt, Event::Anew, &[])?.as_slice() == answers);
    let after = player.board(rt)?;
    assert!(rt; after.row.as_slice() == row);
    assert!(rt; after.links.as_slice() == before.links.as_slice());
    Ok(())
}

#[test]
fn small_rows(rt: HostRuntime) -> Result<(), Fail> {
    let cases: [(&[u64], &[Link], &[u64]); 6] = [
        (&[7], &[], &[7]),
        (&[3, 1, 2], &[], &[1, 2, 3]),
        // First 30, which waits for none; then 40, since 10 waits for it and 20 for 50; and then 10 before 50.
        (
            &[50, 10, 40, 20, 30],
            &[link(40, 10), link(50, 20)],
            &[30, 40, 10, 50, 20],
        ),
        // After 2 comes 4, and then 1; 7 comes before 3.
        (
            &[2, 7, 4, 3, 6, 1, 5],
            &[link(3, 6), link(4, 1), link(6, 5), link(7, 3), link(2, 4)],
            &[2, 4, 1, 7, 3, 6, 5],
        ),
        // All wait for the last but that one.
        (
            &[1, 2, 3, 4],
            &[link(4, 1), link(4, 2), link(4, 3)],
            &[4, 1, 2, 3],
        ),
        // The greatest number there is, and a way through all.
        (
            &[u64::MAX, 0, 9, 5],
            &[link(9, 5), link(5, u64::MAX), link(u64::MAX, 0)],
            &[9, 5, u64::MAX, 0],
        ),
    ];
    for (cards, links, row) in cases {
        let mut player = Player::with_board(&rt, cards, links)?;
        let told = [Ok(Act::Tells(0, row.len() as u64)), Ok(Act::Done)];
        check_anew(&rt, &mut player, row, &told)?;
        check_anew(&rt, &mut player, row, &told)?;
    }
    Ok(())
}

// Cards that came from the greatest to the smallest.
#[test]
fn longest_row(rt: HostRuntime) -> Result<(), Fail> {
    let cards: Vec<u64> = (0..8192).rev().collect(rt.alloc())?;
    let mut player = Player::with_board(&rt, cards.as_slice(), &[link(8191, 0)])?;
    let row: Vec<u64> = (1..8192).chain([0]).collect(rt.alloc())?;
    let told = [
        Ok(Act::Tells(0, 4096)),
        Ok(Act::Tells(4096, 4096)),
        Ok(Act::Done),
    ];
    check_anew(&rt, &mut player, row.as_slice(), &told)?;
    check_anew(&rt, &mut player, row.as_slice(), &told)
}

#[test]
fn no_row(rt: HostRuntime) -> Result<(), Fail> {
    let mut player = Player::with_cards(&rt, 0)?;
    let answers = player.say(&rt, Event::Anew, &[])?;
    assert_eq!(rt; answers.last(), Some(&Ok(Act::Done)));
    assert!(rt; player.board(&rt)?.row.is_empty());
    Ok(())
}
