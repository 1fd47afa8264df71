//! What was stored is what is read.

ghost use Rattle.nf_laws.specs.Reads.{StoredIsRead};

/// What a PUT stored is what a later GET of the path is granted, while the nodes of its path stay as they are.
pub fn stored_is_read()
    ensures { StoredIsRead }
{}
