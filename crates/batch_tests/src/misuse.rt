// What is said out of turn, and what doesn't fit.
use crate::cases::link;
use crate::player::Player;
use batch::{Event, make_anew, step};
use command::Command;
use keeper::{Act, MEMORY, OUTPUT, Reason};
use order::{Link, Refusal};
use std::process::Abort;
use std::test::Fail;

// Sees that with so much memory and output all is refused as unfit, and nothing is changed.
fn check_unfit(rt: &(impl Abort + AllocGlobal), memory: usize, out: usize) -> Result<(), Fail> {
    let mut memory = vec![in rt.alloc(); 7u64; memory]?;
    let mut out = vec![in rt.alloc(); 7u64; out]?;
    let batch = [link(1, 2)];
    let said = Event::Said(Command::Comes(1));
    for event in [Event::Several, Event::Anew, said, Event::Next] {
        let answer = step(memory.as_mut_slice(), event, &batch, out.as_mut_slice());
        assert_eq!(rt; answer, Err(Reason::Unfit));
    }
    let made = make_anew(memory.as_mut_slice(), &[1, 2], &batch, out.as_mut_slice());
    assert_eq!(rt; made, Err(Reason::Unfit));
    let mut numbers = memory.iter().chain(out.as_slice());
    assert!(rt; numbers.all(|number| *number == 7));
    Ok(())
}

#[test]
fn unfit(rt: HostRuntime) -> Result<(), Fail> {
    check_unfit(&rt, MEMORY - 1, OUTPUT)?;
    check_unfit(&rt, MEMORY + 1, OUTPUT)?;
    check_unfit(&rt, MEMORY, OUTPUT - 1)
}

// Sees that whatever is said is refused as out of turn, and nothing is changed.
fn check_busy(rt: &(impl Abort + AllocGlobal), player: &mut Player) -> Result<(), Fail> {
    let before = player.memory().to_vec(rt.alloc())?;
    for event in [Event::Several, Event::Anew, Event::Said(Command::Goes(1))] {
        assert_eq!(rt; player.step(event, &[link(0, 1)]), Err(Reason::Busy));
    }
    assert!(rt; before.as_slice() == player.memory());
    Ok(())
}

// Sees that there is nothing to go on with, and nothing is changed.
fn check_idle(rt: &(impl Abort + AllocGlobal), player: &mut Player) -> Result<(), Fail> {
    let before = player.memory().to_vec(rt.alloc())?;
    assert_eq!(rt; player.step(Event::Next, &[link(0, 1)]), Err(Reason::Idle));
    assert!(rt; before.as_slice() == player.memory());
    Ok(())
}

// Says something, and goes on, and sees that the answers are these, and that nothing else can be said between them.
fn check_turns(
    rt: &(impl Abort + AllocGlobal),
    player: &mut Player,
    event: Event,
    batch: &[Link],
    due: &[Result<Act, Reason>],
) -> Result<(), Fail> {
    check_idle(rt, player)?;
    let mut event = event;
    for (i, answer) in due.iter().enumerate() {
        assert_eq!(rt; player.step(event, batch), *answer, "answer {i}");
        if i + 1 < due.len() {
            check_busy(rt, player)?;
        }
        event = Event::Next;
    }
    check_idle(rt, player)
}

#[test]
fn out_of_turn(rt: HostRuntime) -> Result<(), Fail> {
    let mut player = Player::with_cards(&rt, 8192)?;
    let told = [
        Ok(Act::Tells(0, 4096)),
        Ok(Act::Tells(4096, 4096)),
        Ok(Act::Done),
    ];
    let round = [Ok(Act::Shows(1)), Err(Reason::Board(Refusal::Cycle))];
    check_turns(&rt, &mut player, Event::Several, &[link(8191, 0)], &told)?;
    check_turns(&rt, &mut player, Event::Several, &[link(1, 1)], &round)?;
    check_turns(&rt, &mut player, Event::Anew, &[], &told)
}
