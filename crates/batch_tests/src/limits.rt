// As many links on the board as there may be.
use crate::board::lent;
use crate::cases::{Due, EXISTS, FULL, MISSING, check, link};
use crate::player::Player;
use batch::Event;
use command::Command;
use keeper::Act;
use order::Link;
use std::process::Abort;
use std::test::Fail;

// Each of the first 256 cards before each of the next 256, said at once for each of the first; behind them are four cards without links.
fn with_all_links(rt: &(impl Abort + AllocGlobal)) -> Result<Player, Fail> {
    let mut player = Player::with_cards(rt, 516)?;
    for card in 0..256u64 {
        let batch: Vec<Link> = (256..512)
            .map(|other| link(card, other))
            .collect(rt.alloc())?;
        assert_eq!(rt;
            player.step(Event::Several, batch.as_slice()),
            Ok(Act::Done)
        );
    }
    assert_eq!(rt; links::len(lent(player.memory())?), 65536);
    Ok(player)
}

#[test]
fn full_table(rt: HostRuntime) -> Result<(), Fail> {
    let mut player = with_all_links(&rt)?;
    let cases: [(&[Link], Due); 8] = [
        (&[link(512, 513)], FULL),
        (&[link(513, 512)], FULL),
        (&[link(515, 0), link(514, 1)], FULL),
        (&[link(256, 0)], Due::Round(&[0, 256])),
        (&[link(513, 512), link(512, 513)], Due::Round(&[512, 513])),
        (&[link(513, 512), link(514, 514)], Due::Round(&[514])),
        (&[link(513, 512), link(0, 256)], EXISTS),
        (&[link(513, 512), link(0, 516)], MISSING),
    ];
    for (batch, due) in cases {
        check(&rt, &mut player, batch, due)?;
    }
    Ok(())
}

#[test]
fn room_for_one(rt: HostRuntime) -> Result<(), Fail> {
    let mut player = with_all_links(&rt)?;
    player.command(&rt, Command::Unlink(link(0, 256)));
    let row: Vec<u64> = (0..512).chain([513, 512, 514, 515]).collect(rt.alloc())?;
    let row = Due::Row(row.as_slice());
    let two = [link(513, 512), link(515, 514)];
    check(&rt, &mut player, &two, FULL)?;
    check(&rt, &mut player, &[link(513, 512)], row)?;
    check(&rt, &mut player, &[], row)?;
    check(&rt, &mut player, &[link(0, 256)], FULL)
}
