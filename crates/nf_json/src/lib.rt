//! JSON objects of texts and numbers (RFC 8259).
#![tactic(auto)]

mod objects;

pub use objects::{Said, object_of, text_of};
