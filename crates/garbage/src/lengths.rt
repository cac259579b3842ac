// How long the lent memory and output are.
use crate::dice::Dice;
use crate::kind::Kind;
use keeper::OUTPUT;
use memory::MEMORY;

// The lent memory or output is longer than it has to be by so much, at most.
pub(crate) const SPARE: usize = 64;

#[derive(Clone, Copy)]
pub(crate) struct Lengths {
    pub memory: usize,
    pub output: usize,
}

impl Lengths {
    pub(crate) fn drawn(kind: Kind, dice: &mut Dice) -> Lengths {
        match kind {
            Kind::Misfit => Lengths::misfit(dice),
            _ => Lengths::fit(dice),
        }
    }

    fn fit(dice: &mut Dice) -> Lengths {
        let longer = dice.below(SPARE as u64) as usize;
        Lengths {
            memory: MEMORY,
            output: OUTPUT.saturating_add(longer),
        }
    }

    fn misfit(dice: &mut Dice) -> Lengths {
        let fit = Lengths::fit(dice);
        let memory = match dice.below(5) {
            0 => 0,
            1 => MEMORY - 1,
            2 => MEMORY + SPARE,
            3 => dice.below(MEMORY as u64) as usize,
            _ => {
                let output = dice.below(OUTPUT as u64) as usize;
                return Lengths { output, ..fit };
            }
        };
        Lengths { memory, ..fit }
    }
}
