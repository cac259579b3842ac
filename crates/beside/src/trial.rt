// A keeper and a slow board to which the same is said.
use crate::answer::Answer;
use crate::board::Board;
use crate::comparing::Due;
use crate::counts::Counts;
use crate::drawing::draw;
use crate::mood::Mood;
use crate::numbers::Numbers;
use crate::player::Player;
use crate::rows::Rows;
use crate::saying::Saying;
use std::alloc::{AllocError, Global};
use std::io;

// Something that came otherwise.
#[derive(Drop)]
pub(crate) struct Difference {
    what: &'static str,
    due: Due,
    answer: Answer,
}

// On the board stand at most so many cards.
#[derive(Drop)]
pub(crate) struct Trial {
    alloc: Global,
    cards: u64,
    mood: Mood,
    board: Board,
    player: Player,
    rows: Rows,
    counts: Counts,
}

impl Trial {
    pub(crate) fn of(alloc: Global, cards: u64) -> Result<Trial, AllocError> {
        Ok(Trial {
            alloc,
            cards,
            mood: Mood::FIRST,
            board: Board::new(alloc),
            player: Player::new(alloc)?,
            rows: Rows::new(alloc),
            counts: Counts::new(alloc),
        })
    }

    // What has to come of a saying; the board becomes what it has to be then.
    fn due(&mut self, saying: Saying) -> Result<Due, AllocError> {
        let before = self.board.copy()?;
        let refused = before.refusal(self.alloc, &saying)?;
        if refused.is_none() {
            self.board.follow(self.alloc, &mut self.rows, &saying)?;
        }
        Ok(Due {
            before,
            refused,
            after: self.board.copy()?,
            saying,
        })
    }

    // Says something to both; the difference, if there is one.
    pub(crate) fn say(&mut self, numbers: &mut Numbers) -> Result<Option<Difference>, AllocError> {
        self.mood = self.mood.next(numbers, self.cards);
        let saying = draw(self.alloc, numbers, self.mood, &self.board, self.cards)?;
        let answer = self.player.say(&saying, numbers)?;
        let due = self.due(saying)?;
        self.counts.note(&due, &answer)?;
        let what = if self.rows.unfixed > 0 {
            Some("the lines of 'How little changes' leave no row, or not just one")
        } else {
            due.differs(&answer, &self.player)
        };
        let Some(what) = what else {
            return Ok(None);
        };
        Ok(Some(Difference { what, due, answer }))
    }

    // Prints how often what was seen.
    pub(crate) fn print(&self, rt: &HostRuntime) -> io::Result<()> {
        let cards = self.cards;
        let tried = self.rows.tried;
        println!(rt; "")?;
        println!(rt; "at most {cards} cards")?;
        self.counts.print(rt)?;
        println!(rt; "rows tried: {tried}")
    }

    // Says on standard error what came otherwise.
    pub(crate) fn report(&self, rt: &HostRuntime, difference: &Difference) -> io::Result<()> {
        let Difference { what, due, answer } = difference;
        eprintln!(rt; "what differs:     {what}")?;
        due.report(rt)?;
        answer.report(rt)?;
        self.player.report(rt)
    }
}
