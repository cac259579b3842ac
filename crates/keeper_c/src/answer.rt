// How a saying went, as C is told it.
ghost use Rattle.std.specs.Prelude.{◌≡◌};
ghost use Rattle.keeper_c.specs.Answers.{ended};

use keeper::Played;

// Whether it was done, 1 or 0, for three numbers of 64 bits are handed over faster than a `bool` and two; if it wasn't, the number of the reason; and how many
// numbers at the front of the output were shown.
#[repr(C)]
pub struct KeeperAnswer {
    pub done: u64,
    pub reason: u64,
    pub shown: u64,
}

impl KeeperAnswer {
    #[inline(always)]
    pub(crate) fn of(played: Played) -> KeeperAnswer
        ensures { result ≡ ended played.outcome played.shown }
    {
        match played.outcome {
            Ok(()) => KeeperAnswer {
                done: 1,
                reason: 0,
                shown: played.shown,
            },
            Err(reason) => KeeperAnswer {
                done: 0,
                reason: u64::from(reason),
                shown: played.shown,
            },
        }
    }
}
