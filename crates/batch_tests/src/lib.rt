// Several links said at once, and rows made anew, tried out on memory of the heap.
#![tactic(auto)]

#[cfg(test)]
mod alike;
#[cfg(test)]
mod anew;
#[cfg(test)]
mod board;
#[cfg(test)]
mod cases;
#[cfg(test)]
mod limits;
#[cfg(test)]
mod making;
#[cfg(test)]
mod misuse;
#[cfg(test)]
mod player;
#[cfg(test)]
mod several;
