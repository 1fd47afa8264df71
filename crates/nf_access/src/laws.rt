//! What the words about access come to, each as the contract of a function without a body.

ghost use Rattle.nf_access.specs.Kept.{ChainedIsBounded};
ghost use Rattle.nf_access.specs.Laws.{BrokenIsFound, ChainsStayUnder, GrantsAreChains, GrantsStay, MasksLackNothing, ReachIsAChain};

/// What the grants of the chains allow is what can be derived from the shares.
pub fn grants_are_chains()
    ensures { GrantsAreChains }
{}

/// Whom an open grant lets in is whom a chain of live shares reaches.
pub fn reach_is_a_chain()
    ensures { ReachIsAChain }
{}

/// A chain allows no more than each of its shares does, and no less.
pub fn masks_lack_nothing()
    ensures { MasksLackNothing }
{}

/// What is passed on is under what was shared first.
pub fn chains_stay_under()
    ensures { ChainsStayUnder }
{}

/// What changes no place above a shared node changes no grant.
pub fn grants_stay()
    ensures { GrantsStay }
{}

/// A refusal has a first broken link, and it is found.
pub fn broken_is_found()
    ensures { BrokenIsFound }
{}

/// Rows whose shares each have a chain, and whose nodes each lead to a top, have all that the laws of access ask of them.
pub fn chained_is_bounded()
    ensures { ChainedIsBounded }
{}
