//! Tests of shares and mounts by public calls: their lists, and chains and limits, which no case of the suite reaches.
#![tactic(auto)]

#[cfg(test)]
mod mounts;
#[cfg(test)]
mod rows;
#[cfg(test)]
mod shares;
