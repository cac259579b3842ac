// The keeper, tried out on memory of the heap.
#![tactic(auto)]

#[cfg(test)]
mod cases;
#[cfg(test)]
mod limits;
#[cfg(test)]
mod misuse;
#[cfg(test)]
mod moves;
#[cfg(test)]
mod player;
