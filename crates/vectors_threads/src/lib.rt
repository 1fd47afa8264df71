//! Tests of the top call, over sockets and in threads: what neither a clause nor a case of the suite can say. They stand here, and not
//! in the crates that they are about, since a crate's tests are proved with all of its functions once more.
#![tactic(auto)]

#[cfg(test)]
mod doors;
#[cfg(test)]
mod faults;
#[cfg(test)]
mod holds;
#[cfg(test)]
mod words;
