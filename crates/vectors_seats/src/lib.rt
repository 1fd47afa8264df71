//! Tests of the lock of turns and of several seats of one hub: what neither a clause nor a case of the suite can say. They stand
//! here, and not in the crates that they are about, since a crate's tests are proved with all of its functions once more.
#![tactic(auto)]

#[cfg(test)]
mod limits;
#[cfg(test)]
mod seats;
#[cfg(test)]
mod turns;
#[cfg(test)]
mod versions;
