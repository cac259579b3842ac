// As many cards and links as there may be.
use crate::cases::{done, link, refused, round, unlink};
use crate::player::Player;
use command::Command;
use order::{LINKS, Link, Refusal};
use std::process::Abort;
use std::test::Fail;

// The `n`-th of so many links, each from a smaller card to a greater one, among the first 8,191 cards. Eight lead from each card to the next ones; for
// those that would lead too far there are others, from the first cards on.
fn nth_link(n: u64) -> Link {
    let from = n / 8;
    let to = from + n % 8 + 1;
    if to < 8191 {
        return Link { from, to };
    }
    Link {
        from: 8191u64.saturating_sub(from),
        to: 10 + n % 8,
    }
}

// Says this of each link in turn.
fn say_of_all<F: Fn(Link) -> Command>(
    rt: &impl Abort,
    player: &mut Player,
    said: F,
) -> Result<(), Fail>
    requires { F.IsAlwaysCallable said }
{
    for n in 0..LINKS {
        player.play(rt, done(said(nth_link(n))))?;
    }
    Ok(())
}

#[test]
fn all_links(rt: HostRuntime) -> Result<(), Fail> {
    let mut player = Player::with_cards(&rt, 8192)?;
    say_of_all(&rt, &mut player, Command::Link)?;
    player.play_all(
        &rt,
        &[
            refused(link(100, 200), Refusal::Full),
            refused(link(8191, 0), Refusal::Full),
            refused(link(0, 1), Refusal::Exists),
            round(link(1, 0), &[0, 1]),
        ],
    )?;
    say_of_all(&rt, &mut player, Command::Unlink)?;
    player.play_all(
        &rt,
        &[
            refused(unlink(0, 1), Refusal::Missing),
            done(link(1, 0)),
            done(link(8191, 1)),
        ],
    )
}

#[test]
fn all_cards(rt: HostRuntime) -> Result<(), Fail> {
    let mut player = Player::with_cards(&rt, 8192)?;
    player.play_all(
        &rt,
        &[
            refused(Command::Comes(8192), Refusal::Full),
            refused(Command::Comes(8191), Refusal::Exists),
            refused(Command::Goes(8192), Refusal::Missing),
            done(Command::Goes(0)),
            done(Command::Comes(8192)),
            refused(Command::Comes(0), Refusal::Full),
        ],
    )
}
