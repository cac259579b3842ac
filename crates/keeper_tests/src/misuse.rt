// What the keeper refuses.
use crate::cases::{Case, done, link, refused, round, unlink};
use crate::player::Player;
use command::Command;
use keeper::{Act, Event, MEMORY, OUTPUT, Reason, step};
use order::Refusal;
use std::process::Abort;
use std::test::Fail;

// Whether all are sevens.
fn are_sevens(numbers: &[u64]) -> bool {
    numbers.iter().all(|number| *number == 7)
}

// Sees that a step with so much memory and output is refused as unfit, and changes nothing.
fn check_unfit(
    rt: &(impl Abort + AllocGlobal),
    event: Event,
    memory: usize,
    out: usize,
) -> Result<(), Fail> {
    let mut memory = vec![in rt.alloc(); 7u64; memory]?;
    let mut out = vec![in rt.alloc(); 7u64; out]?;
    let answer = step(memory.as_mut_slice(), event, out.as_mut_slice());
    assert_eq!(rt; answer, Err(Reason::Unfit));
    assert!(rt; are_sevens(memory.as_slice()) && are_sevens(out.as_slice()));
    Ok(())
}

// Goes one step, and sees that the answer is what is due, and that nothing changes where it says that the keeper is idle or busy.
fn check_step(
    rt: &(impl Abort + AllocGlobal),
    player: &mut Player,
    number: usize,
    event: Event,
    due: Result<Act, Reason>,
) -> Result<(), Fail> {
    let before = player.memory().to_vec(rt.alloc())?;
    assert_eq!(rt; player.step(rt, event), due, "step {number}");
    if let Err(Reason::Idle | Reason::Busy) = due {
        assert!(rt; before.as_slice() == player.memory(), "step {number}");
    }
    Ok(())
}

// Goes one step after the other; the row is told right at their end.
fn check_steps(
    rt: &(impl Abort + AllocGlobal),
    player: &mut Player,
    steps: &[(Event, Result<Act, Reason>)],
) -> Result<(), Fail> {
    for (i, (event, due)) in steps.iter().enumerate() {
        check_step(rt, player, i, *event, *due)?;
    }
    assert!(rt; player.is_told_right());
    Ok(())
}

#[test]
fn unfit(rt: HostRuntime) -> Result<(), Fail> {
    let said = Event::Said(Command::Comes(1));
    check_unfit(&rt, said, MEMORY - 1, OUTPUT)?;
    check_unfit(&rt, said, MEMORY + 1, OUTPUT)?;
    check_unfit(&rt, said, MEMORY, OUTPUT - 1)?;
    check_unfit(&rt, Event::Next, MEMORY, OUTPUT - 1)
}

#[test]
fn idle_and_busy_telling(rt: HostRuntime) -> Result<(), Fail> {
    let mut player = Player::with_cards(&rt, 8192)?;
    let goes = Event::Said(Command::Goes(1));
    check_steps(
        &rt,
        &mut player,
        &[
            (Event::Next, Err(Reason::Idle)),
            (Event::Said(link(8191, 0)), Ok(Act::Tells(0, 4096))),
            (goes, Err(Reason::Busy)),
            (Event::Next, Ok(Act::Tells(4096, 4096))),
            (goes, Err(Reason::Busy)),
            (Event::Next, Ok(Act::Done)),
            (Event::Next, Err(Reason::Idle)),
        ],
    )
}

#[test]
fn busy_showing(rt: HostRuntime) -> Result<(), Fail> {
    let mut player = Player::with_cards(&rt, 2)?;
    let goes = Event::Said(Command::Goes(1));
    check_steps(
        &rt,
        &mut player,
        &[
            (Event::Said(Command::Places(1, 0)), Ok(Act::Shows(2))),
            (goes, Err(Reason::Busy)),
            (Event::Next, Ok(Act::Done)),
            (Event::Said(link(1, 1)), Ok(Act::Shows(1))),
            (goes, Err(Reason::Busy)),
            (Event::Next, Err(Reason::Board(Refusal::Cycle))),
            (Event::Next, Err(Reason::Idle)),
        ],
    )
}

#[test]
fn not_there_or_there_already(rt: HostRuntime) -> Result<(), Fail> {
    let mut player = Player::with_cards(&rt, 2)?;
    player.play_all(
        &rt,
        &[
            refused(Command::Goes(2), Refusal::Missing),
            refused(link(0, 2), Refusal::Missing),
            refused(link(2, 0), Refusal::Missing),
            refused(link(2, 2), Refusal::Missing),
            refused(unlink(0, 1), Refusal::Missing),
            refused(unlink(2, 0), Refusal::Missing),
            refused(Command::Places(0, 2), Refusal::Missing),
            refused(Command::Places(2, 0), Refusal::Missing),
            refused(Command::Comes(1), Refusal::Exists),
            round(link(1, 1), &[1]),
            Case {
                shown: &[1, 0],
                ..done(Command::Places(1, 0))
            },
        ],
    )
}

#[test]
fn numbers(rt: HostRuntime) {
    assert_eq!(rt; u64::from(Reason::Unfit), 0);
    assert_eq!(rt; u64::from(Reason::Idle), 1);
    assert_eq!(rt; u64::from(Reason::Busy), 2);
    assert_eq!(rt; u64::from(Reason::Board(Refusal::Missing)), 3);
    assert_eq!(rt; u64::from(Reason::Board(Refusal::Exists)), 4);
    assert_eq!(rt; u64::from(Reason::Board(Refusal::Cycle)), 5);
    assert_eq!(rt; u64::from(Reason::Board(Refusal::Full)), 7);
}
