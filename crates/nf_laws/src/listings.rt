//! What a listing has.

ghost use Rattle.nf_laws.specs.Listings.{ChildrenAreListed, LinesAreByName, LinesAreThese, MountsAreListed, PermissionsAreActs};

/// A listing has a line for each node in the folder, and for no other node but those of mounts.
#[tactic(auto, using(crate::proofs::Lines::children_listed))]
pub fn children_are_listed()
    ensures { ChildrenAreListed }
{}

/// Of a user's mounts those have a line that weren't left and on whose node a chain of live shares reaches the user, and no others.
#[tactic(auto, using(crate::proofs::Lines::mounts_listed))]
pub fn mounts_are_listed()
    ensures { MountsAreListed }
{}

/// A listing has the lines of what is in the folder, and in the caller's root those of the caller's mounts, and no other.
pub fn lines_are_these()
    ensures { LinesAreThese }
{}

/// The names of a listing rise, and no two lines have one name.
pub fn lines_are_by_name()
    ensures { LinesAreByName }
{}

/// A line's permissions are the acts that the caller may do at its node.
#[tactic(auto, using(crate::proofs::Lines::permissions_acts))]
pub fn permissions_are_acts()
    ensures { PermissionsAreActs }
{}
