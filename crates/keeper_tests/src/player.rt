// A player says commands to a keeper, and keeps the row by what it is told.
use crate::cases::{Case, done};
use command::Command;
use keeper::{Act, Event, MEMORY, OUTPUT, Reason, read_row, step};
use std::process::Abort;
use std::test::Fail;

// The lent memory and output; the row as it was told, and room for the row as it stands; of the last command, how many times it told of the row and
// how many numbers it showed.
#[derive(Drop)]
pub(crate) struct Player {
    memory: Vec<u64>,
    out: Vec<u64>,
    row: Vec<u64>,
    standing: Vec<u64>,
    told: u64,
    shown: u64,
}

impl Player {
    pub(crate) fn new(rt: &impl AllocGlobal) -> Result<Player, Fail> {
        Ok(Player {
            memory: vec![in rt.alloc(); 0u64; MEMORY]?,
            out: vec![in rt.alloc(); 0u64; OUTPUT]?,
            row: Vec::new(rt.alloc()),
            standing: vec![in rt.alloc(); 0u64; OUTPUT]?,
            told: 0,
            shown: 0,
        })
    }

    // A player with the cards 0, 1, 2 and so on in the row, `n` of them.
    pub(crate) fn with_cards(rt: &(impl Abort + AllocGlobal), n: u64) -> Result<Player, Fail> {
        let mut player = Player::new(rt)?;
        for card in 0..n {
            player.play(rt, done(Command::Comes(card)))?;
        }
        Ok(player)
    }

    // One step of the keeper. What it tells is taken over into the row.
    pub(crate) fn step(&mut self, rt: &impl Abort, event: Event) -> Result<Act, Reason> {
        let act = step(self.memory.as_mut_slice(), event, self.out.as_mut_slice())?;
        match act {
            Act::Tells(at, n) => self.hear(rt, at, n),
            Act::Shows(n) => self.shown = n,
            Act::Done => {}
        }
        Ok(act)
    }

    // Takes what is told over into the row.
    fn hear(&mut self, rt: &impl Abort, at: u64, n: u64) {
        let from = at as usize;
        let count = n as usize;
        assert!(rt; from <= self.row.len() && count <= self.row.len() - from);
        assert!(rt; count <= self.out.len());
        let part = &mut self.row.as_mut_slice()[from..from + count];
        part.copy_from_slice(&self.out.as_slice()[0..count]);
        self.told = self.told.saturating_add(1);
    }

    // Takes a card out of the row.
    fn strike(&mut self, card: u64) {
        if let Some(place) = self.row.iter().position(|other| *other == card) {
            self.row.remove(place);
        }
    }

    // Takes a command that is done over into the row.
    fn follow(&mut self, command: Command) -> Result<(), Fail> {
        match command {
            Command::Comes(card) => self.row.push(card)?,
            Command::Goes(card) => self.strike(card),
            _ => {}
        }
        Ok(())
    }

    // Whether the row as it was told is the row as it stands.
    pub(crate) fn is_told_right(&mut self) -> bool {
        let n = read_row(self.memory.as_slice(), self.standing.as_mut_slice());
        self.standing.get(..n as usize) == Some(self.row.as_slice())
    }

    // Says a command, and goes on up to its end.
    fn say(&mut self, rt: &impl Abort, command: Command) -> Result<Result<(), Reason>, Fail> {
        for event in [Event::Said(command), Event::Next, Event::Next, Event::Next] {
            match self.step(rt, event) {
                Ok(Act::Done) => {
                    self.follow(command)?;
                    return Ok(Ok(()));
                }
                Ok(_) => {}
                Err(reason) => return Ok(Err(reason)),
            }
        }
        Err(Fail::new("no end"))
    }

    // Says a command, and sees that what comes of it is what is to come, and that the row was told right.
    pub(crate) fn play(&mut self, rt: &impl Abort, case: Case) -> Result<(), Fail> {
        self.play_all(rt, &[case])
    }

    // Plays one after the other.
    pub(crate) fn play_all(&mut self, rt: &impl Abort, cases: &[Case]) -> Result<(), Fail> {
        for (i, case) in cases.iter().enumerate() {
            self.told = 0;
            self.shown = 0;
            let outcome = case.outcome.map_err(Reason::Board);
            assert_eq!(rt; self.say(rt, case.command)?, outcome, "case {i}");
            assert_eq!(rt; self.shown, case.shown.len() as u64, "case {i}");
            assert!(rt; self.out.as_slice().starts_with(case.shown), "case {i}");
            assert!(rt; self.is_told_right(), "case {i}");
        }
        Ok(())
    }

    // How many times the last command told of the row.
    pub(crate) fn told(&self) -> u64 {
        self.told
    }

    // The row as it was told.
    pub(crate) fn row(&self) -> &[u64] {
        self.row.as_slice()
    }

    pub(crate) fn memory(&self) -> &[u64] {
        self.memory.as_slice()
    }
}
