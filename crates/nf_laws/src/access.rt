//! Who may read and change what.

ghost use Rattle.nf_laws.specs.Access.{ChangesWhatMayBeChanged, ListsWhatMayBeRead, OwnersAndReachedMay, ServesWhatMayBeRead, WhatMayBeReadIsListed, WhatMayBeReadIsServed};

/// A user may do anything at a node that the user owns. Elsewhere one may do an act by a mount exactly where a chain of live shares
/// reaches one on the mount's node, and each of its shares allows the act.
#[tactic(auto, using(crate::proofs::Reached::owners_and_reached))]
pub fn owners_and_reached_may()
    ensures { OwnersAndReachedMay }
{}

/// What a GET is granted is the content of a file at which the caller may read, and to which the path leads: from the caller's
/// root, or from the node of the mount that it goes by, on which a chain of live shares reaches the caller. Or it is the content of a
/// version of a file that is present, which the caller owns or has a mount at or above, and may read.
#[tactic(auto, using(crate::proofs::Reaching::serves_readable))]
pub fn serves_what_may_be_read()
    ensures { ServesWhatMayBeRead }
{}

/// And each such file is granted to a GET of its path that no rule of who asks or of names refuses: to its owner, and to whom a mount
/// leads there.
pub fn what_may_be_read_is_served()
    ensures { WhatMayBeReadIsServed }
{}

/// What a GET of a folder is answered is what is in a folder at which the caller may read, and to which the path leads so: in the
/// caller's own root its mounts among the children, and of each line what the caller may do there.
#[tactic(auto, using(crate::proofs::Reaching::lists_readable))]
pub fn lists_what_may_be_read()
    ensures { ListsWhatMayBeRead }
{}

/// And each such folder is listed to a GET of its path that no rule of who asks or of names refuses.
pub fn what_may_be_read_is_listed()
    ensures { WhatMayBeReadIsListed }
{}

/// A step makes a node's row another only where who acts may do all that the request needs, and what became of the node follows
/// from that: it is updated, made, moved, put in the trash, or gone with what is deleted; each new item of the trash is of what is
/// deleted. A share ends exactly where its node isn't present any more, and no share and no mount is another otherwise. But where a
/// DELETE or a MOVE names the own path of one of the caller's mounts, that mount is left or has another name; and what is asked about
/// shares makes, changes or ends one share, which the caller may pass on or steers, with mounts for all whom a new one names: then no
/// node is another. Users, groups, tokens and members become others only where a member of the group `admin` asks for that, and just as
/// it is asked; with them come the root of a new user and the mounts of a new member. An item of the caller's trash comes back where the
/// caller asks for it, into a folder of the caller's and under a name that is free there. Then some items of one user's trash may go for
/// good, each with all under it: the user owns what is deleted, asks about the trash, or is given a quota. Of the other rows the meta
/// row alone becomes another.
pub fn changes_what_may_be_changed()
    ensures { ChangesWhatMayBeChanged }
{}
