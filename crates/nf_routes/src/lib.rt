//! Which route a target names, the methods that a route has, and the decoded segments of a path.
#![tactic(auto)]

mod methods;
mod mounts;
mod targets;

pub use methods::{Method, allow, method_of, takes};
pub use mounts::Routes;
pub use targets::{
    is_ocs, pieces, query, restores, restores_version, segments, share_segment, trash_segments,
    upload_segments, user_segment, version_segments,
};
