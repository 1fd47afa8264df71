//! The walks give what the rules say without a walk, and the rules mean nothing else.

ghost use Rattle.nf_retention.specs.Laws.{FittingIsOnly, FittingIsRight, GoingIsRest, KeptIsOnly, KeptIsRight, LatestIsRight, NewestIsRight, ThinnedIsRest};

/// What the walk keeps has the newest version, versions alone, neighbours a step apart, and leaves out none that is a step away.
pub fn kept_is_right()
    ensures { KeptIsRight }
{}

/// And it is the only list that has.
#[tactic(auto, using(crate::proofs::Only::kept_only))]
pub fn kept_is_only()
    ensures { KeptIsOnly }
{}

/// What goes is what isn't kept.
#[tactic(auto, using(crate::proofs::Walks::thinned_rest))]
pub fn thinned_is_rest()
    ensures { ThinnedIsRest }
{}

/// One number of sizes is that of the longest front within a bound, and no other.
#[tactic(auto, using(crate::proofs::Fronts::fitting_right, crate::proofs::Fronts::fitting_only))]
pub fn fitting_is_only()
    ensures there { FittingIsRight }
    ensures only { FittingIsOnly }
{}

/// What is newest first are the same items in order.
pub fn newest_is_right()
    ensures { NewestIsRight }
{}

/// And so are versions.
#[tactic(auto, using(crate::proofs::Latest::latest_right))]
pub fn latest_is_right()
    ensures { LatestIsRight }
{}

/// Of items newest first those go that are there for 30 days, and of the others those behind the longest front within the bound.
#[tactic(auto, using(crate::proofs::Gone::going_rest))]
pub fn going_is_rest()
    ensures { GoingIsRest }
{}
