// The bytes of the input as numbers, and the numbers as a question.
ghost use Rattle.std.specs.Prelude.{◌≡◌, IfOk};
ghost use Rattle.verify.specs.Input.{numbers_of, Split};

use std::alloc::{AllocError, Global};

// A row of cards, and links as numbers, two to a link.
pub(crate) struct Question<'a> {
    pub row: &'a [u64],
    pub links: &'a [u64],
}

// The numbers that the bytes spell, two bytes to a number, the low one first. A last byte that is only half a number is left out.
pub(crate) fn decode(alloc: Global, bytes: &[u8]) -> Result<Vec<u64>, AllocError>
    ensures { IfOk result (λ numbers. numbers.items ≡ numbers_of bytes.now) }
{
    let (numbers, _half) = bytes.as_chunks::<2>();
    numbers
        .iter()
        .map(|number| u64::from(u16::from_le_bytes(*number)))
        .collect(alloc)
}

// The first number says how many cards come next; the others are the links. Nothing, if not all the cards are there.
pub(crate) fn split(numbers: &[u64]) -> Option<Question<'_>>
    ensures { Split numbers.now result }
{
    let (cards, rest) = numbers.split_first()?;
    let (row, links) = rest.split_at_checked(*cards as usize)?;
    Some(Question { row, links })
}
