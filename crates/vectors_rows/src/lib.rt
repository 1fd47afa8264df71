//! Tests of plain values, what is kept, people, stored rows and the words of a command, by public calls: values from outside, each call once on
//! its happy path, and what no clause says. They stand in crates of their own, and not in those that they are about, since a crate's
//! tests are proved with all of its functions once more.
#![tactic(auto)]

#[cfg(test)]
mod base;
#[cfg(test)]
mod command;
#[cfg(test)]
mod opening;
#[cfg(test)]
mod people;
#[cfg(test)]
mod retention;
#[cfg(test)]
mod rows;
#[cfg(test)]
mod uploads;
