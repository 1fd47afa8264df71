//! What an upload that was joined is read as.

ghost use Rattle.nf_joins.specs.Joined.{JoinedIsRead};

/// A file that the chunks of an upload were joined to is read as what they have, one after the other by rising number, while its content
/// isn't changed: that is what each GET is granted that may read it, and no GET whose path leads to it is granted anything else.
pub fn joined_is_read()
    ensures { JoinedIsRead }
{}
