//! Where paths lead.

ghost use Rattle.nf_laws.specs.Walks.{WalkFollows};

/// A path leads to a node exactly where it can be followed there, folder by folder; to a free name where all names but
/// the last lead to a folder that has no child of the last; and elsewhere as far as its names can be followed.
#[tactic(auto, using(crate::proofs::Paths::walk_follows))]
pub fn walk_follows()
    ensures { WalkFollows }
{}
