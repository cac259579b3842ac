// To which cards links lead.
use crate::saying::Pair;
use std::alloc::{AllocError, Global};

// Goes over all links once, and adds each card to which one leads from a card that is there. Whether any was added.
fn go_over(links: &[Pair], led: &mut Vec<u64>) -> Result<bool, AllocError> {
    let before = led.len();
    for link in links {
        if led.contains(&link.a) && !led.contains(&link.b) {
            led.push(link.b)?;
        }
    }
    Ok(led.len() > before)
}

// The cards to which a card leads by these links, and the card itself: the links are gone over until nothing is added.
pub(crate) fn led_from(alloc: Global, links: &[Pair], card: u64) -> Result<Vec<u64>, AllocError> {
    let mut led = vec![in alloc; card; 1]?;
    for _ in 0..=links.len() {
        if !go_over(links, &mut led)? {
            break;
        }
    }
    Ok(led)
}

// The cards that lead to a card by these links, and the card itself.
pub(crate) fn leading_to(alloc: Global, links: &[Pair], card: u64) -> Result<Vec<u64>, AllocError> {
    let turned: Vec<Pair> = links.iter().map(|link| link.turned()).collect(alloc)?;
    led_from(alloc, turned.as_slice(), card)
}
