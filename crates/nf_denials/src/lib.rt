//! Why a request is refused by shares. The functions do nothing: each stands for the fact that it ensures.
#![tactic(auto)]

mod laws;

pub use laws::{
    begins_tell_their_break, breaks_are_told, ends_tell_their_break, links_tell_their_chain,
    own_is_not_refused, reads_go_on, revoked_is_refused, unreached_is_refused,
    versions_tell_their_cause,
};
