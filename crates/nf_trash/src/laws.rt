//! The walk takes what the rule has go, and nothing else.

ghost use Rattle.nf_trash.specs.Laws.{WalkIsGoing};

/// Over a user's items from the oldest on, the walk takes those that go for good by the rule, newest first.
pub fn walk_is_going()
    ensures { WalkIsGoing }
{}
