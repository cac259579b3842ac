// The words that the program is called with.
use std::env::Args;
use thiserror::Error;

// What is asked for: to say what the program does, or to say so many sayings, drawn from a seed.
#[derive(Clone, Copy, Debug, PartialEq, Eq)]
pub(crate) enum Wish {
    Help,
    Sayings { seed: u64, count: u64 },
}

#[derive(Debug, Drop, Error)]
pub(crate) enum WordsError {
    #[error("a seed and a number of sayings are wanted")]
    NotTwo,
    #[error("the seed has to be a number below 2^64")]
    Seed,
    #[error("the number of sayings has to be a number below 2^64")]
    Count,
}

// The first word is the program's own name.
pub(crate) fn wish_of(mut words: Args) -> Result<Wish, WordsError> {
    let _own_name = words.next();
    let first = words.next().ok_or(WordsError::NotTwo)?;
    let second = words.next();
    if second.is_none() && first.as_str() == "--help" {
        return Ok(Wish::Help);
    }
    let (Some(second), None) = (second, words.next()) else {
        return Err(WordsError::NotTwo);
    };
    let seed = first.as_str().parse::<u64>().ok().ok_or(WordsError::Seed)?;
    let count = second
        .as_str()
        .parse::<u64>()
        .ok()
        .ok_or(WordsError::Count)?;
    Ok(Wish::Sayings { seed, count })
}
