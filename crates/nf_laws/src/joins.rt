//! What becomes of the chunks of an upload that are joined.

ghost use Rattle.nf_laws.specs.Charges.{JoinsAreCharged};
ghost use Rattle.nf_laws.specs.Uploads.{JoinsAreWhole, RefusedJoinsKeep};

/// An assembled upload is all its chunks in numeric order, or nothing changed: what they have, one after the other, is the content of the file
/// at the end of the path, and the upload is gone with them. No other file, upload or chunk is another.
pub fn joins_are_whole()
    ensures joined { JoinsAreWhole }
    ensures refused { RefusedJoinsKeep }
{}

/// Whoever joins the chunks of an upload, the owner of the file that they are stored over, or of the folder of the new one, is charged for
/// them, and no one else.
pub fn joins_are_charged()
    ensures { JoinsAreCharged }
{}
