// The words that the program is called with.
use std::env::Args;

// What is asked for: to say what the program does; to try so many memories, from a seed on; or the longest step that is known.
#[derive(Clone, Copy)]
pub(crate) enum Wish {
    Help,
    Try { seed: u64, count: u64 },
    Worst,
}

// The first word is the program's own name. None, if the others ask for nothing of the kind.
pub(crate) fn wish_of(mut words: Args) -> Option<Wish> {
    let _own_name = words.next();
    let first = words.next()?;
    let second = words.next();
    match (first.as_str(), second, words.next()) {
        ("--help", None, None) => Some(Wish::Help),
        ("worst", None, None) => Some(Wish::Worst),
        (seed, Some(count), None) => Some(Wish::Try {
            seed: seed.parse::<u64>().ok()?,
            count: count.as_str().parse::<u64>().ok()?,
        }),
        _ => None,
    }
}
