// A column: a run of numbers in the lent memory. Whatever the index, reading or writing a column never leaves it.
ghost use Rattle.memory.specs.Columns.{index, cell, written, wiped};
ghost use Rattle.memory.specs.Footprints.{Writes};
ghost use Rattle.std.specs.Prelude.{◌≡◌, [], ◌∷◌};

// How many numbers the lent memory has.
pub const MEMORY: usize = 524288;

// The lent memory. Its length stands in its type: where a column is a constant, the test whether a cell of it lies within the memory is no part of the program.
pub type Memory = [u64; MEMORY];

#[derive(Clone, Copy, Debug, PartialEq, Eq)]
pub struct Column {
    pub base: u64,
    pub size: u64,
}

impl Column {
    // Where `i` lies in the memory; nowhere, if it is past the column's end or the memory's.
    #[inline(always)]
    fn index(self, memory: &Memory, i: u64) -> Option<usize>
        ensures { result ≡ index memory.now self i }
    {
        if i >= self.size {
            return None;
        }
        let at = self.base.saturating_add(i);
        (at < MEMORY as u64).then_some(at as usize)
    }

    // What stands at `i`, or 0 past the column's end.
    #[tactic(auto, using(std::proofs::lemmas::List::get_or_past), unfolding(crate::specs::Columns::cell))]
    #[inline(always)]
    pub fn get(self, memory: &Memory, i: u64) -> u64
        ensures { result ≡ cell memory.now self i }
    {
        self.index(memory, i).map_or(0, |at| memory[at])
    }

    // Puts `v` at `i`; nothing past the column's end.
    #[tactic(auto, using(std::proofs::lemmas::List::set_past, crate::proofs::Footprints::same), unfolding(crate::specs::Columns::written))]
    #[inline(always)]
    pub fn set(self, memory: &mut Memory, i: u64, v: u64)
        ensures is { memory.new ≡ written memory.old self i v }
        ensures wrote { Writes (self ∷ []) memory.old memory.new }
    {
        if let Some(at) = self.index(memory, i) {
            memory[at] = v;
        }
    }

    // Puts 0 at each of the first `n`.
    #[tactic(auto, using(crate::proofs::Fuel::one_less), unfolding(crate::specs::Columns::wiped))]
    pub fn blank(self, memory: &mut Memory, n: u64)
        ensures { memory.new ≡ wiped n memory.old self 0 }
    {
        for i in 0..n {
            self.set(memory, i, 0);
        }
    }
}
