// How often what was seen.
use crate::answer::{Answer, Course};
use crate::comparing::Due;
use crate::refusing::Why;
use crate::saying::Saying;
use std::alloc::{AllocError, Global};
use std::io;

// What came of one kind of saying, how often: done with no card moved, or with some; refused, by each reason.
#[derive(Clone, Copy, Debug, Default)]
struct Tally {
    stayed: u64,
    moved: u64,
    missing: u64,
    exists: u64,
    round: u64,
    full: u64,
}

fn count(n: &mut u64) {
    *n = n.saturating_add(1);
}

impl Tally {
    fn note(&mut self, due: &Due) {
        match due.refused {
            None if due.moves() => count(&mut self.moved),
            None => count(&mut self.stayed),
            Some(Why::Missing) => count(&mut self.missing),
            Some(Why::Exists) => count(&mut self.exists),
            Some(Why::Round) => count(&mut self.round),
            Some(Why::Full) => count(&mut self.full),
        }
    }

    fn print(&self, rt: &HostRuntime, name: &str) -> io::Result<()> {
        let Tally {
            stayed,
            moved,
            missing,
            exists,
            round,
            full,
        } = *self;
        println!(rt;
            "{name:<18}{stayed:>11}{moved:>11}{missing:>11}{exists:>11}{round:>11}{full:>11}"
        )
    }
}

// By kind of saying; how many ways were shown, by their length; how often what was said step by step, and out of turn; the most cards and links at once; and
// how many links are gone since the row was made anew, and the most of that.
#[derive(Drop)]
pub(crate) struct Counts {
    comes: Tally,
    goes: Tally,
    link: Tally,
    unlink: Tally,
    places: Tally,
    several: Tally,
    anew: Tally,
    ways: Vec<u64>,
    by_steps: u64,
    told: u64,
    idle: u64,
    busy: u64,
    most_cards: usize,
    most_links: usize,
    gone: usize,
    most_gone: usize,
}

impl Counts {
    pub(crate) fn new(alloc: Global) -> Counts {
        Counts {
            comes: Tally::default(),
            goes: Tally::default(),
            link: Tally::default(),
            unlink: Tally::default(),
            places: Tally::default(),
            several: Tally::default(),
            anew: Tally::default(),
            ways: Vec::new(alloc),
            by_steps: 0,
            told: 0,
            idle: 0,
            busy: 0,
            most_cards: 0,
            most_links: 0,
            gone: 0,
            most_gone: 0,
        }
    }

    // Counts a way that has so many cards.
    fn note_way(&mut self, len: usize) -> Result<(), AllocError> {
        if self.ways.len() <= len {
            self.ways.resize(len.saturating_add(1), 0)?;
        }
        if let Some(n) = self.ways.get_mut(len) {
            count(n);
        }
        Ok(())
    }

    fn note_course(&mut self, answer: &Answer) {
        if answer.course == Course::StepByStep {
            count(&mut self.by_steps);
        }
        if answer.told.is_some() {
            count(&mut self.told);
        }
        self.idle = self.idle.saturating_add(answer.idle.said);
        self.busy = self.busy.saturating_add(answer.busy.said);
    }

    fn note_size(&mut self, due: &Due) {
        let links = due.after.links.len();
        self.most_cards = self.most_cards.max(due.after.row.len());
        self.most_links = self.most_links.max(links);
        self.gone = match due.saying {
            Saying::Anew => 0,
            _ => self
                .gone
                .saturating_add(due.before.links.len().saturating_sub(links)),
        };
        self.most_gone = self.most_gone.max(self.gone);
    }

    pub(crate) fn note(&mut self, due: &Due, answer: &Answer) -> Result<(), AllocError> {
        match &due.saying {
            Saying::Comes(_) => self.comes.note(due),
            Saying::Goes(_) => self.goes.note(due),
            Saying::Link(_) => self.link.note(due),
            Saying::Unlink(_) => self.unlink.note(due),
            Saying::Places(_) => self.places.note(due),
            Saying::Several(_) => self.several.note(due),
            Saying::Anew => self.anew.note(due),
        }
        self.note_course(answer);
        self.note_size(due);
        if due.refused == Some(Why::Round) {
            self.note_way(answer.shown.len())?;
        }
        Ok(())
    }

    fn print_ways(&self, rt: &HostRuntime) -> io::Result<()> {
        print!(rt; "ways shown, by length:")?;
        for (len, n) in self.ways.iter().enumerate() {
            if *n > 0 {
                print!(rt; " {len}: {n}")?;
            }
        }
        println!(rt; "")
    }

    pub(crate) fn print(&self, rt: &HostRuntime) -> io::Result<()> {
        println!(rt;
            "                         done      moved  refused 3  refused 4  refused 5  refused 7"
        )?;
        self.comes.print(rt, "a card comes")?;
        self.goes.print(rt, "a card goes")?;
        self.link.print(rt, "a link")?;
        self.unlink.print(rt, "a link taken back")?;
        self.places.print(rt, "two places")?;
        self.several.print(rt, "several links")?;
        self.anew.print(rt, "the row made anew")?;
        self.print_ways(rt)?;
        let Counts {
            by_steps,
            told,
            idle,
            busy,
            most_cards,
            most_links,
            most_gone,
            ..
        } = self;
        println!(rt; "most cards at once: {most_cards}, most links: {most_links}")?;
        println!(rt; "most links gone with no row made anew: {most_gone}")?;
        println!(rt; "step by step: {by_steps}, told of the row: {told}")?;
        println!(rt; "out of turn: refused 1: {idle}, refused 2: {busy}")
    }
}
