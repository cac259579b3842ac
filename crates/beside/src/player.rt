// The keeper's side: what is said is said to the keeper, in one go or step by step, and what comes of it is noted.
use crate::answer::{Answer, Course, Part};
use crate::numbers::Numbers;
use crate::saying::{Pair, Saying};
use batch::{Event, play, step};
use command::Command;
use keeper::{Act, MEMORY, OUTPUT, Reason, read_row};
use order::Link;
use std::alloc::{AllocError, Global};

// The lent memory and output; the links that are said at once; the row as the caller keeps it, and as it is read.
#[derive(Drop)]
pub(crate) struct Player {
    alloc: Global,
    memory: Vec<u64>,
    out: Vec<u64>,
    batch: Vec<Link>,
    kept: Vec<u64>,
    room: Vec<u64>,
    read: usize,
}

fn link_of(pair: &Pair) -> Link {
    Link {
        from: pair.a,
        to: pair.b,
    }
}

impl Player {
    pub(crate) fn new(alloc: Global) -> Result<Player, AllocError> {
        Ok(Player {
            alloc,
            memory: vec![in alloc; 0u64; MEMORY]?,
            out: vec![in alloc; 0u64; OUTPUT]?,
            batch: Vec::new(alloc),
            kept: Vec::new(alloc),
            room: vec![in alloc; 0u64; OUTPUT]?,
            read: 0,
        })
    }

    // The row as the caller keeps it, by what is told.
    pub(crate) fn kept(&self) -> &[u64] {
        self.kept.as_slice()
    }

    // The row as it is read.
    pub(crate) fn read(&self) -> &[u64] {
        self.room.get(..self.read).unwrap_or(&[])
    }

    // The event that says it. Links that are said at once are put into the batch.
    fn event(&mut self, saying: &Saying) -> Result<Event, AllocError> {
        Ok(match saying {
            Saying::Comes(card) => Event::Said(Command::Comes(*card)),
            Saying::Goes(card) => Event::Said(Command::Goes(*card)),
            Saying::Link(pair) => Event::Said(Command::Link(link_of(pair))),
            Saying::Unlink(pair) => Event::Said(Command::Unlink(link_of(pair))),
            Saying::Places(pair) => Event::Said(Command::Places(pair.a, pair.b)),
            Saying::Several(pairs) => {
                self.batch.clear();
                self.batch.extend(pairs.iter().map(link_of))?;
                Event::Several
            }
            Saying::Anew => Event::Anew,
        })
    }

    fn step(&mut self, event: Event) -> Result<Act, Reason> {
        step(
            self.memory.as_mut_slice(),
            event,
            self.batch.as_slice(),
            self.out.as_mut_slice(),
        )
    }

    // The first n numbers of the output.
    fn shown(&self, n: u64) -> Result<Vec<u64>, AllocError> {
        self.out
            .iter()
            .copied()
            .take(n as usize)
            .collect(self.alloc)
    }

    // Says it in one go, and takes the row over as it is read then.
    fn play(&mut self, event: Event) -> Result<Answer, AllocError> {
        let played = play(
            self.memory.as_mut_slice(),
            event,
            self.batch.as_slice(),
            self.out.as_mut_slice(),
        );
        Ok(Answer {
            end: Some(played.outcome.map_err(u64::from)),
            shown: self.shown(played.shown)?,
            ..Answer::none(self.alloc, Course::InOneGo)
        })
    }

    // Takes what is told over into the row that is kept.
    fn hear(&mut self, from: u64, n: u64) {
        let told = self.out.iter().take(n as usize);
        for (card, new) in self.kept.iter_mut().skip(from as usize).zip(told) {
            *card = *new;
        }
    }

    // Says `Next` now and then, with nothing pending.
    fn interrupt_idle(&mut self, numbers: &mut Numbers, answer: &mut Answer) {
        if numbers.once_in(4) {
            answer
                .idle
                .note(self.step(Event::Next) == Err(Reason::Idle));
        }
    }

    // Says something else now and then, while something is pending.
    fn interrupt_busy(&mut self, numbers: &mut Numbers, answer: &mut Answer) {
        let event = match numbers.below(16) {
            0 => Event::Said(Command::Comes(numbers.below(100))),
            1 => Event::Said(Command::Goes(numbers.below(8))),
            2 => Event::Several,
            3 => Event::Anew,
            _ => return,
        };
        answer.busy.note(self.step(event) == Err(Reason::Busy));
    }

    // Notes what a step answered. Whether it goes on.
    fn note(&mut self, act: Result<Act, Reason>, answer: &mut Answer) -> Result<bool, AllocError> {
        match act {
            Ok(Act::Tells(from, n)) => {
                self.hear(from, n);
                answer.note_told(Part {
                    from,
                    to: from.saturating_add(n),
                });
            }
            Ok(Act::Shows(n)) => answer.shown = self.shown(n)?,
            Ok(Act::Done) => answer.end = Some(Ok(())),
            Err(reason) => answer.end = Some(Err(u64::from(reason))),
        }
        Ok(answer.end.is_none())
    }

    // Says it step by step, sometimes with other words in between.
    fn take_steps(&mut self, event: Event, numbers: &mut Numbers) -> Result<Answer, AllocError> {
        let mut answer = Answer::none(self.alloc, Course::StepByStep);
        self.interrupt_idle(numbers, &mut answer);
        for event in [event, Event::Next, Event::Next] {
            let act = self.step(event);
            if !self.note(act, &mut answer)? {
                break;
            }
            self.interrupt_busy(numbers, &mut answer);
        }
        Ok(answer)
    }

    // Of a card that comes or goes nothing is told.
    fn follow(&mut self, saying: &Saying) -> Result<(), AllocError> {
        match saying {
            Saying::Comes(card) => self.kept.push(*card)?,
            Saying::Goes(card) => self.kept.retain(|other| *other != *card),
            _ => {}
        }
        Ok(())
    }

    // Says it, in one go or by steps.
    pub(crate) fn say(
        &mut self,
        saying: &Saying,
        numbers: &mut Numbers,
    ) -> Result<Answer, AllocError> {
        let event = self.event(saying)?;
        let answer = if numbers.once_in(2) {
            self.play(event)?
        } else {
            self.take_steps(event, numbers)?
        };
        self.read = read_row(self.memory.as_slice(), self.room.as_mut_slice()) as usize;
        if answer.course == Course::InOneGo {
            self.kept = self.read().to_vec(self.alloc)?;
        } else if answer.end == Some(Ok(())) {
            self.follow(saying)?;
        }
        Ok(answer)
    }
}
