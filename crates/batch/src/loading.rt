// A memory filled from nothing: cards come, and links are put in.
ghost use Rattle.std.specs.Prelude.{◌≡◌, length, replicate};
ghost use Rattle.batch.specs.Loading.{LoadedSo, cards_come, put_one, put_all, links_come, loaded};

use crate::checking::all_there;
use keeper::slots_of;
use links::insert;
use memory::Memory;
use order::{LINKS, Link, Refusal};
use row::comes;

// The cards come, one after the other, up to the first that is refused.
#[tactic(auto, using(crate::proofs::LoopSteps::cards))]
fn bring_cards(memory: &mut Memory, row: &[u64]) -> Result<(), Refusal>
    ensures { LoadedSo (cards_come memory.old row.now) result memory.new }
{
    for card in row {
        comes(memory, *card)?;
    }
    Ok(())
}

// Puts a link between cards into the table, if both are there.
#[tactic(auto, unfolding(crate::specs::Loading::put_one))]
fn put_one(memory: &mut Memory, link: Link)
    ensures { memory.new ≡ put_one memory.old link }
{
    if let Some(slots) = slots_of(memory, link) {
        insert(memory, slots);
    }
}

// Puts each of the links whose cards are there into the table.
#[tactic(auto, unfolding(crate::specs::Loading::put_all))]
fn put_all(memory: &mut Memory, links: &[Link])
    ensures { memory.new ≡ put_all memory.old links.now }
{
    for link in links {
        put_one(memory, *link);
    }
}

// Puts the links in; refused if a card isn't there, or if there are too many.
#[tactic(auto, unfolding(crate::specs::Loading::links_come))]
fn bring_links(memory: &mut Memory, links: &[Link]) -> Result<(), Refusal>
    ensures { LoadedSo (links_come memory.old links.now) result memory.new }
{
    if !all_there(memory, links) {
        return Err(Refusal::Missing);
    }
    if links.len() as u64 > LINKS {
        return Err(Refusal::Full);
    }
    put_all(memory, links);
    Ok(())
}

// Fills the memory with the cards and the links, whatever stood there.
#[tactic(auto, unfolding(crate::specs::Loading::loaded))]
pub(crate) fn load(memory: &mut Memory, row: &[u64], links: &[Link]) -> Result<(), Refusal>
    ensures { LoadedSo (loaded (replicate (length memory.old) 0) row.now links.now) result memory.new }
{
    memory.fill(0);
    bring_cards(memory, row)?;
    bring_links(memory, links)
}
