// Random numbers from a seed.
use rand_core::{Rng, SeedableRng};
use rand_xoshiro::SplitMix64;

#[derive(Drop)]
pub(crate) struct Dice {
    rng: SplitMix64,
}

impl Dice {
    pub(crate) fn of_seed(seed: u64) -> Dice {
        Dice {
            rng: SplitMix64::seed_from_u64(seed),
        }
    }

    pub(crate) fn any(&mut self) -> u64 {
        self.rng.next_u64()
    }

    // A number below `n`, which is at most 2^32; 0 if that is 0.
    pub(crate) fn below(&mut self, n: u64) -> u64 {
        (self.any() >> 32).wrapping_mul(n) >> 32
    }
}
