// What is lent to the keeper, and what else is needed to fill it; taken from the heap once for all memories.
use crate::dice::Dice;
use crate::events;
use crate::lengths::SPARE;
use batch::Event;
use keeper::OUTPUT;
use links::ENTRIES;
use memory::MEMORY;
use order::Link;
use std::alloc::AllocError;

// The memory and the output; the links that are said at once; the entries in an order; and by entry a link.
#[derive(Drop)]
pub(crate) struct Bench {
    pub memory: Vec<u64>,
    pub out: Vec<u64>,
    pub batch: Vec<Link>,
    pub order: Vec<u64>,
    pub links: Vec<Link>,
}

impl Bench {
    pub(crate) fn new(rt: &impl AllocGlobal) -> anyhow::Result<Bench> {
        Ok(Bench {
            memory: vec![in rt.alloc(); 0u64; MEMORY + SPARE]?,
            out: vec![in rt.alloc(); 0u64; OUTPUT + SPARE]?,
            batch: Vec::new(rt.alloc()),
            order: vec![in rt.alloc(); 0u64; ENTRIES as usize]?,
            links: vec![in rt.alloc(); Link { from: 0, to: 0 }; ENTRIES as usize + 1]?,
        })
    }

    // An event to be said to the memory; the links of several stand in the batch then.
    pub(crate) fn draw(&mut self, most: u64, dice: &mut Dice) -> Result<Event, AllocError> {
        let Some(memory) = self.memory.as_slice().first_chunk() else {
            return Ok(Event::Next);
        };
        events::drawn(memory, most, &mut self.batch, dice)
    }
}
