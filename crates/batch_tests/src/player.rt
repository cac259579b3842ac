// A player says something to a keeper that takes several links at once. The player of `keeper_tests` keeps a row of its own, in which cards come and go; here
// none does, so that what is told can be compared with the rows before and after. Both can't have a library in common: one has no heap, and can't end at
// a check that fails.
use crate::board::{Board, has, lent, row_of};
use batch::{Event, play, step};
use command::Command;
use keeper::{Act, MEMORY, OUTPUT, Reason};
use order::Link;
use std::process::Abort;
use std::test::Fail;

// The lent memory and output.
#[derive(Drop)]
pub(crate) struct Player {
    memory: Vec<u64>,
    out: Vec<u64>,
}

impl Player {
    // A player to whom these cards have come, and then these links been said.
    pub(crate) fn with_board(
        rt: &(impl Abort + AllocGlobal),
        cards: &[u64],
        links: &[Link],
    ) -> Result<Player, Fail> {
        let mut player = Player {
            memory: vec![in rt.alloc(); 0u64; MEMORY]?,
            out: vec![in rt.alloc(); 0u64; OUTPUT]?,
        };
        for card in cards {
            player.command(rt, Command::Comes(*card));
        }
        for link in links {
            player.command(rt, Command::Link(*link));
        }
        Ok(player)
    }

    // A player with the cards 0, 1, 2 and so on in the row, `n` of them.
    pub(crate) fn with_cards(rt: &(impl Abort + AllocGlobal), n: u64) -> Result<Player, Fail> {
        let cards: Vec<u64> = (0..n).collect(rt.alloc())?;
        Player::with_board(rt, cards.as_slice(), &[])
    }

    // Says a command that is to be done.
    pub(crate) fn command(&mut self, rt: &impl Abort, command: Command) {
        let played = play(
            self.memory.as_mut_slice(),
            Event::Said(command),
            &[],
            self.out.as_mut_slice(),
        );
        assert_eq!(rt; played.outcome, Ok(()));
    }

    pub(crate) fn step(&mut self, event: Event, batch: &[Link]) -> Result<Act, Reason> {
        step(
            self.memory.as_mut_slice(),
            event,
            batch,
            self.out.as_mut_slice(),
        )
    }

    // Takes what an answer tells over into a row.
    fn hear(&self, answer: Result<Act, Reason>, row: &mut [u64]) {
        if let Ok(Act::Tells(at, n)) = answer {
            let told = self.out.iter().take(n as usize);
            for (card, new) in row.iter_mut().skip(at as usize).zip(told) {
                *card = *new;
            }
        }
    }

    // Says links at once, or that the row is made anew, or a link alone; the answers, one after the other, at most three. What they tell makes the row before
    // to the row after.
    pub(crate) fn say(
        &mut self,
        rt: &(impl Abort + AllocGlobal),
        event: Event,
        batch: &[Link],
    ) -> Result<Vec<Result<Act, Reason>>, Fail> {
        let mut row = row_of(rt, lent(self.memory.as_slice())?)?;
        let mut answers = Vec::new(rt.alloc());
        for event in [event, Event::Next, Event::Next] {
            let answer = self.step(event, batch);
            self.hear(answer, row.as_mut_slice());
            answers.push(answer)?;
            if !matches!(answer, Ok(Act::Tells(..) | Act::Shows(_))) {
                break;
            }
        }
        assert!(rt; row.as_slice() == row_of(rt, lent(self.memory.as_slice())?)?.as_slice());
        Ok(answers)
    }

    pub(crate) fn board(&self, rt: &(impl Abort + AllocGlobal)) -> Result<Board, Fail> {
        Board::read(rt, lent(self.memory.as_slice())?)
    }

    // Sees that row and links are as before, and that no link of the batch is found that wasn't there.
    pub(crate) fn check_unchanged(
        &self,
        rt: &(impl Abort + AllocGlobal),
        before: &Board,
        batch: &[Link],
    ) -> Result<(), Fail> {
        let after = self.board(rt)?;
        assert!(rt; after.row.as_slice() == before.row.as_slice());
        assert!(rt; after.links.as_slice() == before.links.as_slice());
        let memory = lent(self.memory.as_slice())?;
        assert!(rt;
            batch
                .iter()
                .all(|link| has(memory, *link) == before.links.contains(link))
        );
        Ok(())
    }

    // The first `n` numbers of the output.
    pub(crate) fn shown(&self, n: u64) -> &[u64] {
        self.out.get(..n as usize).unwrap_or(&[])
    }

    pub(crate) fn memory(&self) -> &[u64] {
        self.memory.as_slice()
    }

    // Takes over what stands in the memory of another player.
    pub(crate) fn copy_from(&mut self, rt: &impl Abort, other: &Player) {
        assert_eq!(rt; self.memory.len(), other.memory.len());
        self.memory
            .as_mut_slice()
            .copy_from_slice(other.memory.as_slice());
    }
}
