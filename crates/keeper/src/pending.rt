// What is still to come of the last command, as it is noted in the memory.
ghost use Rattle.std.specs.Prelude.{◌≡◌};
ghost use Rattle.memory.specs.Footprints.{Writes};
ghost use Rattle.keeper.specs.Columns.{columns};
ghost use Rattle.keeper.specs.Answers.{still_to_come, noted};

use crate::layout::{MORE_FROM, MORE_TO, PENDING};
use memory::Memory;

// Nothing; that it's done; that it's refused, since it would go round; or more of the row, from a place on, below another.
#[derive(Clone, Copy, Debug, PartialEq, Eq)]
pub enum Pending {
    Nothing,
    Done,
    Round,
    More { from: u64, to: u64 },
}

impl Pending {
    // What the memory says is still to come; none, if what it says is nothing of the kind.
    #[tactic(auto, unfolding(crate::specs::Answers::still_to_come))]
    #[inline(always)]
    pub fn of(memory: &Memory) -> Option<Pending>
        ensures { result ≡ still_to_come memory.now }
    {
        match PENDING.get(memory, 0) {
            0 => Some(Pending::Nothing),
            1 => Some(Pending::Done),
            2 => Some(Pending::Round),
            3 => Some(Pending::More {
                from: MORE_FROM.get(memory, 0),
                to: MORE_TO.get(memory, 0),
            }),
            _ => None,
        }
    }

    // Notes it in the memory.
    #[tactic(auto, using(memory::proofs::Footprints::footprints, crate::proofs::Carrying::noted_more))]
    #[inline(always)]
    pub fn note(self, memory: &mut Memory)
        ensures is { memory.new ≡ noted memory.old self }
        ensures wrote { Writes columns memory.old memory.new }
    {
        match self {
            Pending::Nothing => PENDING.set(memory, 0, 0),
            Pending::Done => PENDING.set(memory, 0, 1),
            Pending::Round => PENDING.set(memory, 0, 2),
            Pending::More { from, to } => {
                PENDING.set(memory, 0, 3);
                MORE_FROM.set(memory, 0, from);
                MORE_TO.set(memory, 0, to);
            }
        }
    }
}
