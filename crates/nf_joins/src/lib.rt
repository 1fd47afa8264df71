//! What chunks that were sent become, over a whole run. The functions do nothing: each stands for the fact that it ensures.
#![tactic(auto)]

mod bytes;
mod joined;
mod sent;
mod turns;

pub use bytes::{own_tell_on, sent_is_read};
pub use joined::joined_is_read;
pub use sent::chunks_were_sent;
pub use turns::{turns_bring, turns_read};
