//! What DELETE, MKCOL, PUT, a MOVE of a mount and a sweep change, and what is asked about the trash, and nothing else.

ghost use Rattle.nf_laws.specs.Acts.{CutBodiesKeep, DeletesKeep, DropsKeep, EmptyingKeeps, FoldersAreMade, ItemsComeBack, MountsAreLeft, MountsAreRenamed, PutsAreGranted, PutsKeep, SweepsTake};

/// A DELETE puts the node to which its path leads into its owner's trash with all under it, or takes it out for good where the trash
/// can't hold it, as it does items that the trash can't hold any more. It ends the shares of what is under the node, and touches no
/// other node, item or share. Of a mount's own path it leaves the mount, and touches no other row.
#[tactic(auto, using(crate::proofs::Acting::mounts_left))]
pub fn deletes_keep()
    ensures nodes { DeletesKeep }
    ensures mounts { MountsAreLeft }
{}

/// What is dropped from the trash is gone for good with all under it: an item that is asked for, or all the caller's where the trash
/// is emptied. Nothing else is touched but items of the caller's that the trash can't hold any more.
pub fn drops_keep()
    ensures one { DropsKeep }
    ensures all { EmptyingKeeps }
{}

/// An item that comes back is in the folder that it came from, or else in its owner's root, under a name that was free there, with all
/// under it as it was. Nothing else is touched but items of the caller's that the trash can't hold any more.
pub fn items_come_back()
    ensures { ItemsComeBack }
{}

/// A MOVE of a mount's own path gives the mount the target's last name, and touches no other row.
pub fn mounts_are_renamed()
    ensures { MountsAreRenamed }
{}

/// A sweep takes the items that their owners' trashes don't hold any more, each for good with all under it, and the uploads that nobody
/// sent a chunk of for a day, each with its chunks, and touches nothing else.
pub fn sweeps_take()
    ensures { SweepsTake }
{}

/// A MKCOL makes one folder, at the end of its path, and touches no other node.
#[tactic(auto, using(crate::proofs::Acting::folders_made))]
pub fn folders_are_made()
    ensures { FoldersAreMade }
{}

/// A PUT changes nothing until its body is there; then it makes one file, or gives one another content and moment, and touches
/// no other node.
#[tactic(auto, using(crate::proofs::Acting::puts_granted, crate::proofs::Acting::puts_keep))]
pub fn puts_keep()
    ensures begin { PutsAreGranted }
    ensures body { PutsKeep }
{}

/// A body that is cut changes no row and stores no blob.
pub fn cut_bodies_keep()
    ensures { CutBodiesKeep }
{}
