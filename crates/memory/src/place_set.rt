// Sets of places as bits. Two levels of bits stand in a column: one bit per place, and behind these, in the summary, one bit per word of the first level,
// which is set while that word isn't 0. Places that aren't marked cost next to nothing, since a word that holds none is passed over by its bit in the
// summary.
ghost use Rattle.std.specs.Prelude.{◌≡◌, ℕ, ◌+◌, ◌-◌, ◌*◌, ◌/◌, ◌<◌, ◌≤◌, [], ◌∷◌};
ghost use Rattle.memory.specs.Footprints.{Writes};
ghost use Rattle.memory.specs.PlaceSets.{first_word, bit, flipped, toggled, marked, fresh, added, removed};
ghost use Rattle.memory.specs.Options.{Within};
ghost use Rattle.memory.specs.PlaceSets.{next_bit, tops_up, word_up, up_from, next_up, first_mark};
ghost use Rattle.memory.specs.PlaceSets.{last_bit, tops_down, word_down, down_from, next_down, cleared, untopped, wiped};
ghost use Rattle.memory.specs.PlaceSetLaws.{Adds, Removes, Wipes, NextUp, NextDown, Firsts};

use crate::column::{Column, Memory};

// How many places there are.
pub const PLACES: u64 = 16384;

// How many words hold the places, and how many the summary.
const WORDS: u64 = PLACES / 64;

const TOPS: u64 = WORDS / 64;

// How many numbers a set takes.
pub const SET_WORDS: u64 = WORDS + TOPS;

// One of the two levels of bits.
#[derive(Clone, Copy)]
enum Level {
    Places,
    Summary,
}

impl Level {
    // The word that it starts at.
    fn first_word(self) -> u64
        ensures { result ≡ first_word self }
    {
        match self {
            Level::Places => 0,
            Level::Summary => WORDS,
        }
    }
}

#[derive(Clone, Copy, Debug, PartialEq, Eq)]
pub struct PlaceSet {
    pub column: Column,
}

impl PlaceSet {
    // Whether the bit `i` of a level is set.
    #[tactic(auto, using(std::proofs::lemmas::Nat::Bits::shr_and_one), unfolding(crate::specs::PlaceSets::bit, crate::specs::PlaceSets::digit))]
    fn bit(self, memory: &Memory, level: Level, i: u64) -> bool
        ensures { result ≡ bit memory.now self.column (first_word level) i }
    {
        (self.column.get(memory, level.first_word() + i / 64) >> (i % 64)) & 1 == 1
    }

    // Turns the bit `i` of a level.
    #[tactic(auto, using(std::proofs::lemmas::Nat::one_shl, crate::proofs::Footprints::footprints), unfolding(crate::specs::PlaceSets::flipped))]
    fn flip(self, memory: &mut Memory, level: Level, i: u64)
        ensures is { memory.new ≡ flipped memory.old self.column (first_word level) i }
        ensures wrote { Writes (self.column ∷ []) memory.old memory.new }
    {
        let word = level.first_word() + i / 64;
        let bits = self.column.get(memory, word) ^ (1 << (i % 64));
        self.column.set(memory, word, bits);
    }

    // Turns the bit of a place, and the bit of its word in the summary if that word was 0 or is so now.
    #[tactic(auto, using(crate::proofs::Footprints::footprints), unfolding(crate::specs::PlaceSets::toggled))]
    fn toggle(self, memory: &mut Memory, place: u64)
        ensures is { memory.new ≡ toggled memory.old self.column place }
        ensures wrote { Writes (self.column ∷ []) memory.old memory.new }
    {
        let word = place / 64;
        let before = self.column.get(memory, word);
        self.flip(memory, Level::Places, place);
        if before == 0 || self.column.get(memory, word) == 0 {
            self.flip(memory, Level::Summary, word);
        }
    }

    // Whether the place is marked.
    #[tactic(auto, unfolding(crate::specs::PlaceSets::marked))]
    pub fn has(self, memory: &Memory, place: u64) -> bool
        ensures { result ≡ marked memory.now self.column place }
    {
        place < PLACES && self.bit(memory, Level::Places, place)
    }

    // Marks the place; says whether that is new.
    #[tactic(auto, using(crate::proofs::Laws::adds, crate::proofs::Footprints::footprints), unfolding(crate::specs::PlaceSets::fresh, crate::specs::PlaceSets::added))]
    pub fn add(self, memory: &mut Memory, place: u64) -> bool
        ensures is { result ≡ fresh memory.old self.column place }
        ensures after { memory.new ≡ added memory.old self.column place }
        ensures law { Adds memory.old self.column place result memory.new }
        ensures wrote { Writes (self.column ∷ []) memory.old memory.new }
    {
        if place >= PLACES || self.has(memory, place) {
            return false;
        }
        self.toggle(memory, place);
        true
    }

    // Takes the mark of the place away; says whether there was one.
    #[tactic(auto, using(crate::proofs::Laws::removes, crate::proofs::Footprints::footprints), unfolding(crate::specs::PlaceSets::removed))]
    pub fn remove(self, memory: &mut Memory, place: u64) -> bool
        ensures is { result ≡ marked memory.old self.column place }
        ensures after { memory.new ≡ removed memory.old self.column place }
        ensures law { Removes memory.old self.column place result memory.new }
        ensures wrote { Writes (self.column ∷ []) memory.old memory.new }
    {
        if !self.has(memory, place) {
            return false;
        }
        self.toggle(memory, place);
        true
    }

    // The first set bit of a level from `i` on, in the word of `i`.
    #[tactic(auto, using(crate::proofs::Words::trailing_first), unfolding(crate::specs::PlaceSets::next_bit))]
    fn next_bit(self, memory: &Memory, level: Level, i: u64) -> Option<u64>
        ensures is { result ≡ next_bit memory.now self.column (first_word level) i }
        ensures below { Within (i / 64 * 64 + 64) result }
    {
        let rest = self.column.get(memory, level.first_word() + i / 64) >> (i % 64);
        if rest == 0 {
            return None;
        }
        Some(i + rest.trailing_zeros() as u64)
    }

    // The first word that the summary names in its words from `first` on.
    #[tactic(auto, using(crate::proofs::Fuel::one_less), unfolding(crate::specs::PlaceSets::tops_up))]
    fn tops_up(self, memory: &Memory, first: u64) -> Option<u64>
        ensures is { result ≡ tops_up (TOPS - first) memory.now self.column first }
        ensures below { Within WORDS result }
    {
        for top in first..TOPS {
            if let Some(word) = self.next_bit(memory, Level::Summary, top * 64) {
                return Some(word);
            }
        }
        None
    }

    // The first word from `word` on that the summary names.
    #[tactic(auto, unfolding(crate::specs::PlaceSets::word_up))]
    fn word_up(self, memory: &Memory, word: u64) -> Option<u64>
        ensures is { result ≡ word_up memory.now self.column word }
        ensures below { Within WORDS result }
    {
        if word >= WORDS {
            return None;
        }
        self.next_bit(memory, Level::Summary, word)
            .or_else(|| self.tops_up(memory, word / 64 + 1))
    }

    // The first marked place from `place` on.
    #[tactic(auto, unfolding(crate::specs::PlaceSets::up_from))]
    fn up_from(self, memory: &Memory, place: u64) -> Option<u64>
        ensures is { result ≡ up_from memory.now self.column place }
        ensures below { Within PLACES result }
    {
        if place >= PLACES {
            return None;
        }
        self.next_bit(memory, Level::Places, place).or_else(|| {
            let word = self.word_up(memory, place / 64 + 1)?;
            self.next_bit(memory, Level::Places, word * 64)
        })
    }

    // The first marked place after `place`.
    #[tactic(auto, using(crate::proofs::Laws::going), unfolding(crate::specs::PlaceSets::next_up))]
    pub fn next_up(self, memory: &Memory, place: u64) -> Option<u64>
        ensures is { result ≡ next_up memory.now self.column place }
        ensures law { NextUp memory.now self.column place result }
        ensures below { Within PLACES result }
    {
        if place >= PLACES {
            return None;
        }
        self.up_from(memory, place + 1)
    }

    // The first marked place of all.
    #[tactic(auto, using(crate::proofs::Laws::going), unfolding(crate::specs::PlaceSets::first_mark))]
    pub fn first(self, memory: &Memory) -> Option<u64>
        ensures is { result ≡ first_mark memory.now self.column }
        ensures law { Firsts memory.now self.column result }
        ensures below { Within PLACES result }
    {
        self.up_from(memory, 0)
    }

    // Downward, by the same two steps. They aren't one function with those upward, over a type for the direction: the bit that is looked for, the edge, the
    // word beside and the bit at which a word is entered all differ, and the type would have to name each of these.

    // The last set bit of a level up to `i`, in the word of `i`.
    #[tactic(auto, using(crate::proofs::Words::masked), unfolding(crate::specs::PlaceSets::last_bit))]
    fn last_bit(self, memory: &Memory, level: Level, i: u64) -> Option<u64>
        ensures is { result ≡ last_bit memory.now self.column (first_word level) i }
        ensures below { Within (i / 64 * 64 + 64) result }
    {
        let rest = self.column.get(memory, level.first_word() + i / 64)
            & (u64::MAX >> (63 - i % 64));
        if rest == 0 {
            return None;
        }
        Some(i / 64 * 64 + (63 - rest.leading_zeros() as u64))
    }

    // The last word that the summary names in so many of its words.
    #[tactic(auto, unfolding(crate::specs::PlaceSets::tops_down))]
    fn tops_down(self, memory: &Memory, tops: u64) -> Option<u64>
        requires { tops ≤ TOPS }
        ensures is { result ≡ tops_down memory.now self.column tops }
        ensures below { Within WORDS result }
    {
        for top in (0..tops).rev() {
            if let Some(word) = self.last_bit(memory, Level::Summary, top * 64 + 63) {
                return Some(word);
            }
        }
        None
    }

    // The last word up to `word` that the summary names.
    #[tactic(auto, unfolding(crate::specs::PlaceSets::word_down))]
    fn word_down(self, memory: &Memory, word: u64) -> Option<u64>
        requires { word < WORDS }
        ensures is { result ≡ word_down memory.now self.column word }
        ensures below { Within WORDS result }
    {
        self.last_bit(memory, Level::Summary, word)
            .or_else(|| self.tops_down(memory, word / 64))
    }

    // The last marked place up to `place`.
    #[tactic(auto, unfolding(crate::specs::PlaceSets::down_from))]
    fn down_from(self, memory: &Memory, place: u64) -> Option<u64>
        requires { place < PLACES }
        ensures is { result ≡ down_from memory.now self.column place }
        ensures below { Within PLACES result }
    {
        self.last_bit(memory, Level::Places, place).or_else(|| {
            if place < 64 {
                return None;
            }
            let word = self.word_down(memory, place / 64 - 1)?;
            self.last_bit(memory, Level::Places, word * 64 + 63)
        })
    }

    // The last marked place before `place`.
    #[tactic(auto, using(crate::proofs::Laws::going), unfolding(crate::specs::PlaceSets::next_down))]
    pub fn next_down(self, memory: &Memory, place: u64) -> Option<u64>
        ensures is { result ≡ next_down memory.now self.column place }
        ensures law { NextDown memory.now self.column place result }
        ensures below { Within PLACES result }
    {
        if place == 0 {
            return None;
        }
        self.down_from(memory, place.min(PLACES) - 1)
    }

    // Empties the words of places that the summary names, in as many turns as there are words, whatever the memory holds.
    #[tactic(auto, using(crate::proofs::Clearing::steps, crate::proofs::Footprints::footprints))]
    fn clear(self, memory: &mut Memory)
        ensures is { memory.new ≡ cleared WORDS memory.old self.column 0 }
        ensures wrote { Writes (self.column ∷ []) memory.old memory.new }
    {
        let mut word = 0;
        for _turn in 0..WORDS {
            let Some(named) = self.word_up(memory, word) else {
                return;
            };
            self.column.set(memory, named, 0);
            word = named + 1;
        }
    }

    // Empties the summary.
    #[tactic(auto, using(crate::proofs::Fuel::one_less, crate::proofs::Footprints::footprints), unfolding(crate::specs::PlaceSets::untopped))]
    fn clear_summary(self, memory: &mut Memory)
        ensures is { memory.new ≡ untopped TOPS memory.old self.column 0 }
        ensures wrote { Writes (self.column ∷ []) memory.old memory.new }
    {
        for top in 0..TOPS {
            self.column.set(memory, WORDS + top, 0);
        }
    }

    // Takes all marks away.
    #[tactic(auto, using(crate::proofs::Laws::wipes, crate::proofs::Footprints::footprints), unfolding(crate::specs::PlaceSets::wiped))]
    pub fn wipe(self, memory: &mut Memory)
        ensures is { memory.new ≡ wiped memory.old self.column }
        ensures law { Wipes memory.old self.column memory.new }
        ensures wrote { Writes (self.column ∷ []) memory.old memory.new }
    {
        self.clear(memory);
        self.clear_summary(memory);
    }
}
