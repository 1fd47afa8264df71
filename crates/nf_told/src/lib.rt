//! What a keeper of rows and blobs tells of them, and how that stands to the tables of the site.
#![tactic(auto)]

pub mod laws;
