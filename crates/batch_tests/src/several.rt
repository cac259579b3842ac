// Several links said at once.
use crate::cases::{Due, EXISTS, FULL, MISSING, check, link};
use crate::player::Player;
use order::Link;
use std::test::Fail;

// On a board of six cards in their order, with 0 before 1 and 3 before 4.
#[test]
fn refused_on_a_small_board(rt: HostRuntime) -> Result<(), Fail> {
    let mut player = Player::with_board(&rt, &[0, 1, 2, 3, 4, 5], &[link(0, 1), link(3, 4)])?;
    let cases: [(&[Link], Due); 17] = [
        (&[link(1, 2), link(2, 1)], Due::Round(&[1, 2])),
        (
            &[link(5, 2), link(2, 0), link(0, 5)],
            Due::Round(&[5, 2, 0]),
        ),
        (&[link(1, 3), link(4, 0)], Due::Round(&[0, 1, 3, 4])),
        (&[link(5, 0), link(1, 2), link(4, 3)], Due::Round(&[3, 4])),
        (&[link(2, 2)], Due::Round(&[2])),
        (&[link(5, 0), link(2, 2)], Due::Round(&[2])),
        (&[link(0, 1)], EXISTS),
        (&[link(5, 4), link(0, 1)], EXISTS),
        (&[link(5, 2), link(5, 2)], EXISTS),
        (&[link(1, 0), link(0, 1)], EXISTS),
        (&[link(2, 2), link(2, 2)], EXISTS),
        (&[link(6, 1)], MISSING),
        (&[link(5, 2), link(1, 6)], MISSING),
        (&[link(6, 6)], MISSING),
        (&[link(2, 2), link(0, 6)], MISSING),
        (&[link(0, 1), link(0, 6)], MISSING),
        (&[link(5, 2), link(5, 2), link(6, 0)], MISSING),
    ];
    for (batch, due) in cases {
        check(&rt, &mut player, batch, due)?;
    }
    Ok(())
}

// On the same board, one after the other.
#[test]
fn done_on_a_small_board(rt: HostRuntime) -> Result<(), Fail> {
    let mut player = Player::with_board(&rt, &[0, 1, 2, 3, 4, 5], &[link(0, 1), link(3, 4)])?;
    let cases: [(&[Link], Due); 7] = [
        (&[], Due::Row(&[0, 1, 2, 3, 4, 5])),
        (&[link(0, 5), link(1, 3)], Due::Row(&[0, 1, 2, 3, 4, 5])),
        // By the first link 0 1 2 5 3 4; then 2 has no link, and keeps its place.
        (&[link(5, 3), link(5, 1)], Due::Row(&[0, 5, 2, 1, 3, 4])),
        (&[link(4, 2), link(2, 1)], Due::Round(&[1, 3, 4, 2])),
        // By the first link 0 2 5 1 3 4.
        (&[link(2, 5), link(2, 0)], Due::Row(&[2, 0, 5, 1, 3, 4])),
        (&[link(2, 0)], EXISTS),
        (&[link(4, 1)], Due::Round(&[1, 3, 4])),
    ];
    for (batch, due) in cases {
        check(&rt, &mut player, batch, due)?;
    }
    Ok(())
}

// The board of six cards of a theatre at the end of the example, with two cards more.
#[test]
fn done_at_the_theatre(rt: HostRuntime) -> Result<(), Fail> {
    let links = [link(3, 6), link(4, 1), link(6, 5)];
    let mut player = Player::with_board(&rt, &[4, 3, 1, 6, 5, 2, 7], &links)?;
    let cases: [(&[Link], Due); 4] = [
        // By the first link 4 7 1 3 6 2 5.
        (&[link(7, 3), link(2, 4)], Due::Row(&[2, 7, 4, 3, 6, 1, 5])),
        (
            &[link(5, 2), link(1, 7)],
            Due::Round(&[7, 3, 6, 5, 2, 4, 1]),
        ),
        (&[link(2, 5), link(4, 1)], EXISTS),
        (&[link(2, 5), link(9, 1)], MISSING),
    ];
    for (batch, due) in cases {
        check(&rt, &mut player, batch, due)?;
    }
    Ok(())
}

// Each card up to 256 before the one that came before it; but the last links are others.
#[test]
fn as_many_as_may_be(rt: HostRuntime) -> Result<(), Fail> {
    let mut player = Player::with_cards(&rt, 300)?;
    let mut batch: Vec<Link> = (0..255).map(|i| link(i + 1, i)).collect(rt.alloc())?;
    let circle: Vec<u64> = (0..256).rev().collect(rt.alloc())?;
    let row: Vec<u64> = (0..257).rev().chain(257..300).collect(rt.alloc())?;
    let cases = [
        (link(0, 255), Due::Round(circle.as_slice())),
        (link(1, 0), EXISTS),
        (link(256, 300), MISSING),
        (link(256, 255), Due::Row(row.as_slice())),
    ];
    for (last, due) in cases {
        batch.push(last)?;
        check(&rt, &mut player, batch.as_slice(), due)?;
        batch.pop();
    }
    Ok(())
}

// More links than may be said at once are refused at once, whatever they are.
#[test]
fn one_too_many(rt: HostRuntime) -> Result<(), Fail> {
    let mut player = Player::with_cards(&rt, 300)?;
    let fine: Vec<Link> = (0..257).map(|i| link(i + 1, i)).collect(rt.alloc())?;
    let bad = vec![in rt.alloc(); link(300, 300); 257]?;
    check(&rt, &mut player, fine.as_slice(), FULL)?;
    check(&rt, &mut player, bad.as_slice(), FULL)
}
