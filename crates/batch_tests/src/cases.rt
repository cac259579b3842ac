// Links that are said at once, with what is to come of them.
use crate::board::Board;
use crate::player::Player;
use batch::Event;
use keeper::{Act, Reason};
use order::{Link, Refusal};
use std::process::Abort;
use std::test::Fail;

// What is to come of links: the row, if they are done; or why not; or, if they go round, the one circle that there is, from any of its cards on.
#[derive(Clone, Copy)]
pub(crate) enum Due<'a> {
    Row(&'a [u64]),
    Refused(Refusal),
    Round(&'a [u64]),
}

// These only shorten the tests.
pub(crate) const MISSING: Due<'static> = Due::Refused(Refusal::Missing);

pub(crate) const EXISTS: Due<'static> = Due::Refused(Refusal::Exists);

pub(crate) const FULL: Due<'static> = Due::Refused(Refusal::Full);

pub(crate) fn link(from: u64, to: u64) -> Link {
    Link { from, to }
}

// Whether these are the same cards in the same order, but that they may begin with another one.
pub(crate) fn is_turned(cards: &[u64], due: &[u64]) -> bool {
    let Some(first) = cards.first() else {
        return due.is_empty();
    };
    let Some(start) = due.iter().position(|card| card == first) else {
        return false;
    };
    let turned = due.iter().skip(start).chain(due.iter().take(start));
    cards.iter().eq(turned)
}

// Whether what is told lies from this place on, and before that one.
fn is_told_within(answers: &[Result<Act, Reason>], from: u64, to: u64) -> bool {
    answers.iter().all(|answer| match answer {
        Ok(Act::Tells(at, n)) => *at >= from && at.saturating_add(*n) <= to,
        _ => true,
    })
}

// Whether what is told lies in the row between the first and the last card that the links name.
fn is_told_between(before: &Board, batch: &[Link], answers: &[Result<Act, Reason>]) -> bool {
    let named = || {
        batch
            .iter()
            .flat_map(|link| [link.from, link.to])
            .filter_map(|card| before.place_of(card))
    };
    let (Some(first), Some(last)) = (named().min(), named().max()) else {
        return true;
    };
    is_told_within(answers, first as u64, (last as u64).saturating_add(1))
}

// Links that were said at once, the board before, and the answers.
#[derive(Drop)]
pub(crate) struct Said<'a> {
    batch: &'a [Link],
    before: Board,
    answers: Vec<Result<Act, Reason>>,
}

impl<'a> Said<'a> {
    pub(crate) fn at_once(
        rt: &(impl Abort + AllocGlobal),
        player: &mut Player,
        batch: &'a [Link],
    ) -> Result<Said<'a>, Fail> {
        Ok(Said {
            batch,
            before: player.board(rt)?,
            answers: player.say(rt, Event::Several, batch)?,
        })
    }

    pub(crate) fn before(&self) -> &Board {
        &self.before
    }

    // Sees that the links are done, and the row is this one; that nothing is told if it is as before; and that just the links came to the others.
    pub(crate) fn check_done(
        &self,
        rt: &(impl Abort + AllocGlobal),
        player: &Player,
        row: &[u64],
    ) -> Result<(), Fail> {
        let after = player.board(rt)?;
        assert_eq!(rt; self.answers.last(), Some(&Ok(Act::Done)));
        assert_eq!(rt; self.answers.len() == 1, self.before.row.as_slice() == row);
        assert!(rt; is_told_between(&self.before, self.batch, self.answers.as_slice()));
        assert!(rt; after.row.as_slice() == row);
        assert!(rt;
            after
                .links
                .iter()
                .eq(self.before.links.iter().chain(self.batch))
        );
        Ok(())
    }

    // Sees that the links are refused for this reason, and that nothing is changed.
    pub(crate) fn check_refused(
        &self,
        rt: &(impl Abort + AllocGlobal),
        player: &Player,
        refusal: Refusal,
    ) -> Result<(), Fail> {
        assert!(rt; self.answers.as_slice() == [Err(Reason::Board(refusal))].as_slice());
        player.check_unchanged(rt, &self.before, self.batch)
    }

    // Sees that the links go round, that a circle is shown, and that nothing is changed; the circle.
    pub(crate) fn check_round<'b>(
        &self,
        rt: &(impl Abort + AllocGlobal),
        player: &'b Player,
    ) -> Result<&'b [u64], Fail> {
        let n = match self.answers.first() {
            Some(Ok(Act::Shows(n))) => *n,
            _ => 0,
        };
        let due = [Ok(Act::Shows(n)), Err(Reason::Board(Refusal::Cycle))];
        assert!(rt; self.answers.as_slice() == due.as_slice());
        player.check_unchanged(rt, &self.before, self.batch)?;
        let circle = player.shown(n);
        assert!(rt; self.before.is_circle(self.batch, circle));
        Ok(circle)
    }
}

// Says the links, and sees that what comes of them is what is to come.
pub(crate) fn check(
    rt: &(impl Abort + AllocGlobal),
    player: &mut Player,
    batch: &[Link],
    due: Due,
) -> Result<(), Fail> {
    let said = Said::at_once(rt, player, batch)?;
    match due {
        Due::Row(row) => said.check_done(rt, player, row),
        Due::Refused(refusal) => said.check_refused(rt, player, refusal),
        Due::Round(circle) => {
            let shown = said.check_round(rt, player)?;
            assert!(rt; is_turned(shown, circle));
            Ok(())
        }
    }
}
