// What a memory has of a board: its row, and its links, the oldest first.
use keeper::{read_row, slots_of};
use links::{AGE, ALL, ENTRIES, find};
use memory::Memory;
use order::{CARDS, Link};
use row::IDS;
use std::process::Abort;
use std::test::Fail;

#[derive(Drop)]
pub(crate) struct Board {
    pub row: Vec<u64>,
    pub links: Vec<Link>,
}

// The link between cards that a pair of slots in one number stands for.
fn link_of(memory: &Memory, pair: u64) -> Link {
    Link {
        from: IDS.get(memory, pair / CARDS),
        to: IDS.get(memory, pair % CARDS),
    }
}

// Whether a link is found in the table.
pub(crate) fn has(memory: &Memory, link: Link) -> bool {
    slots_of(memory, link).is_some_and(|slots| find(memory, slots).is_some())
}

// The memory as its length is known.
pub(crate) fn lent(memory: &[u64]) -> Result<&Memory, Fail> {
    let Some(memory) = memory.as_array() else {
        return Err(Fail::new("a memory of another length"));
    };
    Ok(memory)
}

// Reads the row, and sees that there are as many cards as the memory says.
pub(crate) fn row_of(rt: &(impl Abort + AllocGlobal), memory: &Memory) -> Result<Vec<u64>, Fail> {
    let n = row::len(memory);
    let mut row = vec![in rt.alloc(); 0u64; n as usize]?;
    assert_eq!(rt; read_row(memory, row.as_mut_slice()), n);
    Ok(row)
}

impl Board {
    // Reads the board, and sees that there are as many links as the memory says, and that each is found.
    pub(crate) fn read(rt: &(impl Abort + AllocGlobal), memory: &Memory) -> Result<Board, Fail> {
        let row = row_of(rt, memory)?;
        let mut links: Vec<Link> = AGE
            .walk(memory, ALL, ENTRIES)
            .map(|pointer| link_of(memory, pointer.label))
            .collect(rt.alloc())?;
        links.as_mut_slice().reverse();
        assert_eq!(rt; links.len() as u64, links::len(memory));
        assert!(rt; links.iter().all(|link| has(memory, *link)));
        Ok(Board { row, links })
    }

    // The place of a card in the row, if it is there.
    pub(crate) fn place_of(&self, card: u64) -> Option<usize> {
        self.row.iter().position(|other| *other == card)
    }

    // Whether the cards are a circle: each is linked to the next one, and the last to the first, by a link of the board or of the batch, and none is there twice.
    pub(crate) fn is_circle(&self, batch: &[Link], cards: &[u64]) -> bool {
        let next = cards.iter().skip(1).chain(cards.first());
        let mut pairs = cards.iter().zip(next);
        let are_linked = pairs.all(|(from, to)| {
            let link = Link {
                from: *from,
                to: *to,
            };
            batch.contains(&link) || self.links.contains(&link)
        });
        let mut counted = cards.iter().enumerate();
        let is_once = counted.all(|(i, card)| !cards[..i].contains(card));
        !cards.is_empty() && are_linked && is_once
    }
}
