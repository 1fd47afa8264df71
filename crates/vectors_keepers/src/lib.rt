//! Tests of the keepers, in memory and in a database, by their public calls.
#![tactic(auto)]

#[cfg(test)]
mod calls;
#[cfg(test)]
mod cuts;
#[cfg(test)]
mod database;
#[cfg(test)]
mod extents;
#[cfg(test)]
mod memory;
