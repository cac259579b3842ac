// A row made anew by the rule, from any cards and links; or a circle of links, if they go round.
ghost use Rattle.std.specs.Prelude.{◌≡◌, ◌≤◌, length, replicate, Ok};
ghost use Rattle.search.specs.Way.{over};
ghost use Rattle.batch.specs.AnewLaws.{MakesAnew};
ghost use Rattle.batch.specs.Renewing.{renewed};
ghost use Rattle.batch.specs.Loading.{loaded};
ghost use Rattle.batch.specs.MakingAnew.{MadeSo, new_row, ended, made, made_anew};

use crate::circling::show_circle;
use crate::layout::SPARE;
use crate::loading::load;
use crate::renewing::renew;
use keeper::{OUTPUT, Reason};
use memory::Memory;
use order::Link;
use row::IDS;

// How a row is made anew: so many cards at the front of the output, which is lent, are the new row; or they are a circle, each linked to the next and
// the last to the first. A circle is an answer and no failure, and the names say what the numbers are.
#[derive(Clone, Copy, Debug, PartialEq, Eq)]
pub enum Anew {
    Row(u64),
    Circle(u64),
}

// Writes the cards of the first n slots in SPARE to the front of `out`. (`row::tell` tells from the row's own columns, and refuses where it doesn't fit.)
// Tried as `(0..n).zip(out)`: a proof then knows nothing of what was written.
fn show_row(memory: &Memory, n: u64, out: &mut [u64])
    requires { n ≤ length out.old }
    ensures { out.new ≡ over memory.now (new_row memory.now n) n out.old }
{
    for i in 0..n {
        let slot = SPARE.get(memory, i);
        out[i as usize] = IDS.get(memory, slot);
    }
}

// Makes the row of a memory anew, and shows it, or a circle. The output's length is asked for, and no type: a circle may be as long as the whole output.
#[tactic(auto, unfolding(crate::specs::MakingAnew::ended))]
fn finish(memory: &mut Memory, out: &mut [u64]) -> Anew
    requires { OUTPUT ≤ length out.old }
    ensures { MadeSo (ended (renewed memory.old).memory (renewed memory.old).came out.old) (Ok result) memory.new out.new }
{
    let n = renew(memory);
    if n < row::len(memory) {
        return Anew::Circle(show_circle(memory, n, out));
    }
    show_row(memory, n, out);
    Anew::Row(n)
}

// Makes the row of these cards and links anew, in lent memory.
#[tactic(auto, unfolding(crate::specs::MakingAnew::made))]
fn make(memory: &mut Memory, row: &[u64], links: &[Link], out: &mut [u64]) -> Result<Anew, Reason>
    requires { OUTPUT ≤ length out.old }
    ensures { MadeSo (made (loaded (replicate (length memory.old) 0) row.now links.now) out.old) result memory.new out.new }
{
    load(memory, row, links)?;
    Ok(finish(memory, out))
}

// Makes the row anew by the rule, with these links: the row by the rule is written to the front of `out`, or a circle, if the links go round. Whatever
// stood in the memory is gone then.
#[tactic(auto, using(crate::proofs::MakesAnew::makes_anew, crate::proofs::MakesAnew::makings), unfolding(crate::specs::MakingAnew::made_anew))]
pub fn make_anew(
    memory: &mut [u64],
    row: &[u64],
    links: &[Link],
    out: &mut [u64],
) -> Result<Anew, Reason>
    ensures made { MadeSo (made_anew memory.old row.now links.now out.old) result memory.new out.new }
    ensures right { MakesAnew }
{
    let Some(memory) = memory.as_mut_array() else {
        return Err(Reason::Unfit);
    };
    if out.len() < OUTPUT {
        return Err(Reason::Unfit);
    }
    make(memory, row, links, out)
}
