//! Tests of what reads and writes bytes, of targets and of lines of the log: by public calls, with values from outside.
#![tactic(auto)]

#[cfg(test)]
mod http;
#[cfg(test)]
mod log;
#[cfg(test)]
mod outside;
#[cfg(test)]
mod routes;
