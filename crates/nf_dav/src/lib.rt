//! WebDAV (RFC 4918) over HTTP: the request that a message has, and the bytes of answers.
#![tactic(auto)]

mod fields;
mod fronts;
mod listings;
mod refusals;
mod replies;
mod requests;
mod spots;
mod trash;
mod upload_requests;
mod version_requests;
mod words;

pub use replies::{
    Manner, continue_answer, done, file_head, items, listing, made, plain, refusal, share, shares,
    versions,
};
pub use requests::{Unasked, request, wants_body};
