//! Laws of the tree of nodes.

ghost use Rattle.nf_laws.specs.Tree.{UnderIsDerived, NodesArePresent, PresentIsThere, SharedIsPresent, PathsLeadToPresent, NamesAreTaken, DepthIsClimbed, NoRings, ChildrenAreByName, WalksTakeAllUnder, SizesAreSums};

/// A node is under a top where folders lead up to it, however many.
#[tactic(auto, using(crate::proofs::Upwards::under_derived))]
pub fn under_is_derived()
    ensures { UnderIsDerived }
{}

/// Every node of sound tables is under a user's root, or in the trash.
#[tactic(auto, using(crate::proofs::Upwards::nodes_present))]
pub fn nodes_are_present()
    ensures { NodesArePresent }
{}

/// A node is there exactly where it is under a user's root, and so under a root, or in the trash, and never both.
#[tactic(auto, using(crate::proofs::Presence::present_there))]
pub fn present_is_there()
    ensures { PresentIsThere }
{}

/// A share that isn't ended is of a node under a user's root: nothing in the trash is shared.
#[tactic(auto, using(crate::proofs::Presence::shared_present))]
pub fn shared_is_present()
    ensures { SharedIsPresent }
{}

/// A path that is reached and leads to a node leads to one under a user's root: no path leads into the trash.
#[tactic(auto, using(crate::proofs::Presence::paths_present))]
pub fn paths_lead_to_present()
    ensures { PathsLeadToPresent }
{}

/// A folder's taken names are those by which it has a child.
#[tactic(auto, using(crate::proofs::Upwards::names_taken))]
pub fn names_are_taken()
    ensures { NamesAreTaken }
{}

/// A node's depth is how many folders up its owner's root is, or the one in the trash that it is under, `MAX_DEPTH` at most.
pub fn depth_is_climbed()
    ensures { DepthIsClimbed }
{}

/// No node is in a folder that is under it.
#[tactic(auto, using(crate::proofs::Upwards::no_rings))]
pub fn no_rings()
    ensures { NoRings }
{}

/// A folder's children are the nodes in it, by name, each once.
#[tactic(auto, using(crate::proofs::Children::children_by_name))]
pub fn children_are_by_name()
    ensures { ChildrenAreByName }
{}

/// A walk from a top has just the nodes under it, each once: they are what a DELETE drops, and what a COPY copies.
#[tactic(auto, using(crate::proofs::Walked::walks_take))]
pub fn walks_take_all_under()
    ensures { WalksTakeAllUnder }
{}

/// A folder's size is the sum of the bytes of all files under it, however large the site.
#[tactic(auto, using(crate::proofs::Sizes::sizes_sum))]
pub fn sizes_are_sums()
    ensures { SizesAreSums }
{}
