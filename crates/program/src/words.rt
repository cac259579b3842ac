// The words that a program is called with.
ghost use Rattle.std.specs.Prelude.{drop};
ghost use Rattle.std.specs.Vec.Iter.{into_iter_items};
ghost use Rattle.program.specs.Words.{Asks};

use std::env::Args;
use thiserror::Error;

// What is asked for: to say what the program does, or to do it with a file, or with what comes on standard input.
#[derive(Debug, Drop, PartialEq, Eq)]
pub enum Wish {
    Help,
    File(String),
    Input,
}

#[derive(Debug, Drop, Error, PartialEq, Eq)]
pub enum WordsError {
    #[error("more than one file")]
    ManyFiles,
}

// The first word is the program's own name. Another one is a file, or asks for help.
pub fn wish_of(mut words: Args) -> Result<Wish, WordsError>
    ensures { Asks (drop 1 (into_iter_items words)) result }
{
    let _own_name = words.next();
    let Some(word) = words.next() else {
        return Ok(Wish::Input);
    };
    if words.next().is_some() {
        return Err(WordsError::ManyFiles);
    }
    if word.as_str() == "--help" {
        return Ok(Wish::Help);
    }
    Ok(Wish::File(word))
}

#[cfg(test)]
mod tests {
    use super::{Wish, WordsError, wish_of};
    use std::test::Fail;

    // What a program is asked for that is called with these words behind its name.
    fn asked(rt: &impl AllocGlobal, words: &[&str]) -> Result<Result<Wish, WordsError>, Fail> {
        let mut all = vec![in rt.alloc(); String::from_str(rt.alloc(), "program")?]?;
        for word in words {
            all.push(String::from_str(rt.alloc(), word)?)?;
        }
        Ok(wish_of(all.into_iter()))
    }

    #[test]
    fn wishes(rt: HostRuntime) -> Result<(), Fail> {
        let path = String::from_str(rt.alloc(), "week")?;
        assert_eq!(rt; asked(&rt, &[])?, Ok(Wish::Input));
        assert_eq!(rt; asked(&rt, &["--help"])?, Ok(Wish::Help));
        assert_eq!(rt; asked(&rt, &["week"])?, Ok(Wish::File(path)));
        assert_eq!(rt;
            asked(&rt, &["--help", "week"])?,
            Err(WordsError::ManyFiles)
        );
        Ok(())
    }
}
