//! What MOVE and COPY keep, and what a copy is.

ghost use Rattle.nf_laws.specs.Transfers.{CopiesMirror, MovesKeep};

/// A MOVE keeps the node's number, owner and content and all that is under it. Where the folder is another owner's, it leaves copies
/// there of the node and of all under it, which are that owner's, and the node leaves its place as by a DELETE. So does what is replaced;
/// no other node and no other share is touched, but items go that the trash of an owner of what left its place can't hold any more.
pub fn moves_keep()
    ensures { MovesKeep }
{}

/// A COPY leaves its source as it was, and makes a copy of each node under it, of the same kind, content and name, in the copy of
/// the folder in which the node is. What is replaced leaves its place as by a DELETE.
pub fn copies_mirror()
    ensures { CopiesMirror }
{}
