//! The rules that stored rows keep.
#![tactic(auto)]

mod laws;

pub use laws::{
    broken_is_there, opened_is_sound, ruled_are_unbroken, stays_ruled, unbroken_are_ruled,
};
