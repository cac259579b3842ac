// Says whether a row of cards keeps links.
#![tactic(auto)]

mod input;

ghost use Rattle.order.specs.Kept.{Names};

use anyhow::{Context, ensure};
use input::{Question, decode, split};
use order::{Misfit, kept};
use program::Program;
use std::env;
use std::process::ExitCode;

const VERIFY: Program = Program {
    name: "verify",
    help: HELP,
};

const HELP: &str = "\
usage: verify FILE
       verify < FILE

Says whether a row of cards keeps links. A link from one card to another is
kept if the one stands before the other. A card that isn't in the row stands
behind all that are; a card that is there twice stands where it is met first.

The input is numbers of two bytes each, the low byte first: how many cards
there are, the cards from the left, then the links, two numbers each (from,
to), up to the end of the input.

One line is printed:
  kept            every link is kept
  broken 3: 5 2   link 3, from card 5 to card 2, isn't, and is the first that
                  isn't; links are counted from 0
  refused 1       the last link has only one number
  refused 2       there are more than 65,536 links

If the input can't be read, or ends inside a number or before all its cards
have come, a message on standard error says so, and the status is 1.
";

// Prints what was found out about these links.
fn print(rt: &HostRuntime, links: &[u64], reply: Result<Option<u64>, Misfit>) -> anyhow::Result<()>
    requires { Names links.now reply }
{
    match reply {
        Ok(None) => println!(rt; "kept")?,
        Ok(Some(i)) => {
            let (links, _half) = links.as_chunks::<2>();
            let [from, to] = links[i as usize];
            println!(rt; "broken {i}: {from} {to}")?
        }
        Err(misfit) => {
            let number = u64::from(misfit);
            println!(rt; "refused {number}")?
        }
    }
    Ok(())
}

fn answer(rt: &HostRuntime, bytes: &[u8]) -> anyhow::Result<()> {
    ensure!(bytes.len() % 2 == 0, "the input ends inside a number");
    let numbers = decode(rt.alloc(), bytes)?;
    let Question { row, links } = split(numbers.as_slice()).context(
        "the input ends before all its cards have come",
    )?;
    print(rt, links, kept(row, links))
}

fn main(rt: HostRuntime) -> ExitCode {
    VERIFY.run(&rt, env::args(&rt), answer)
}

#[cfg(test)]
mod tests {
    use order::{Misfit, kept};
    use std::test::Fail;

    const ROW: [u64; 6] = [1, 5, 2, 4, 3, 6];

    const CASES: [(&str, &[u64], &[u64], Result<Option<u64>, Misfit>); 10] = [
        ("all kept", &ROW, &[1, 5, 5, 2, 2, 3, 4, 6], Ok(None)),
        ("broken", &ROW, &[1, 5, 4, 2, 3, 2], Ok(Some(1))),
        ("to a missing card", &ROW, &[6, 9], Ok(None)),
        ("from a missing card", &ROW, &[9, 6], Ok(Some(0))),
        ("two missing cards", &ROW, &[8, 9], Ok(Some(0))),
        ("a card before itself", &ROW, &[4, 4], Ok(Some(0))),
        ("half a link", &ROW, &[6, 1, 2], Err(Misfit::HalfLink)),
        ("no card and no link", &[], &[], Ok(None)),
        ("from a double card", &[2, 1, 2], &[2, 1], Ok(None)),
        ("to a double card", &[2, 1, 2], &[1, 2], Ok(Some(0))),
    ];

    #[test]
    fn replies(rt: HostRuntime) {
        for (name, row, links, reply) in CASES {
            assert_eq!(rt; kept(row, links), reply, "{name}");
        }
    }

    #[test]
    fn numbers(rt: HostRuntime) {
        assert_eq!(rt; u64::from(Misfit::HalfLink), 1);
        assert_eq!(rt; u64::from(Misfit::TooMany), 2);
    }

    #[test]
    fn limits(rt: HostRuntime) -> Result<(), Fail> {
        let many = vec![in rt.alloc(); 1u64; 131074]?;
        let all = many.as_slice();
        assert!(rt; all.len() == 131074);
        let links = &all[0..131072];
        let longer = &links[0..65537];
        let row = &longer[0..65536];
        assert_eq!(rt; kept(longer, &[]), Err(Misfit::TooMany), "a card too many");
        assert_eq!(rt; kept(&[], all), Err(Misfit::TooMany), "a link too many");
        assert_eq!(rt; kept(row, links), Ok(Some(0)), "just as many");
        Ok(())
    }
}
