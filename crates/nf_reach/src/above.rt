//! The mounts of who asks that a node is at or under, by which versions are asked about: their routes name a node by its number.

ghost use Rattle.std.specs.Prelude.{◌≡◌, ◌&&◌};
ghost use Rattle.std.specs.List.{list_any};
ghost use Rattle.nf_access.specs.Access.{allows, by_chains};
ghost use Rattle.nf_access.specs.Mounts.{is_mounted};
ghost use Rattle.nf_defs.specs.Tree.{parent_of};
ghost use Rattle.nf_reach.specs.Asking.{user_in};
ghost use Rattle.nf_words.specs.Needed.{granting_above, is_granting, mount_above, mount_by, nearest};

use crate::asker::Asker;
use nf_base::{Act, MAX_DEPTH, NodeId, Place};

impl<'a> Asker<'a> {
    /// The node of the nearest one, counted upwards from a node.
    pub fn mount_above(&self, node: NodeId) -> Option<NodeId>
        ensures { result ≡ mount_above self.now.base.nodes self.now.mounts (user_in self.now.seeker) node }
    {
        self.mount_within(MAX_DEPTH, node)
    }

    /// The same, so many folders up at most.
    #[tactic(auto, using(crate::proofs::Nearest::nearest_here, crate::proofs::Nearest::nearest_ends, crate::proofs::Nearest::nearest_up))]
    fn mount_within(&self, up: u32, node: NodeId) -> Option<NodeId>
        ensures { result ≡ nearest up self.now.base.nodes (is_mounted self.now.mounts (user_in self.now.seeker)) node }
    {
        if self.has_mount(node) {
            return Some(node);
        }
        if up == 0 {
            return None;
        }
        self.mount_within(up - 1, self.folder_above(node)?)
    }

    /// The node of the nearest one that lets who asks do the act, so many folders up at most.
    #[tactic(auto, using(crate::proofs::Nearest::nearest_here, crate::proofs::Nearest::nearest_ends, crate::proofs::Nearest::nearest_up))]
    fn granting_within(&self, up: u32, act: Act, node: NodeId) -> Option<NodeId>
        ensures { result ≡ nearest up self.now.base.nodes (is_granting (by_chains self.now.base) self.now.mounts self.now.seeker (user_in self.now.seeker) self.now.moment act) node }
    {
        if self.has_mount(node) && self.is_granted(act, node) {
            return Some(node);
        }
        if up == 0 {
            return None;
        }
        self.granting_within(up - 1, act, self.folder_above(node)?)
    }

    /// The node of the one by which the act at a node is judged: the nearest that allows it, or else the nearest.
    pub fn mount_by(&self, act: Act, node: NodeId) -> Option<NodeId>
        ensures { result ≡ mount_by (by_chains self.now.base) self.now.base.nodes self.now.mounts self.now.seeker (user_in self.now.seeker) self.now.moment act node }
    {
        match self.granting_within(MAX_DEPTH, act, node) {
            Some(mount) => Some(mount),
            None => self.mount_above(node),
        }
    }

    /// Whether who asks has a mount of the node that wasn't left.
    fn has_mount(&self, node: NodeId) -> bool
        ensures { result ≡ is_mounted self.now.mounts (user_in self.now.seeker) node }
    {
        self.all_mounts().is_mounted(self.user(), node)
    }

    /// The folder that a node is in.
    fn folder_above(&self, node: NodeId) -> Option<NodeId>
        ensures { result ≡ parent_of self.now.base.nodes node }
    {
        match self.tree().node(node)?.place {
            Place::Inside(folder) => Some(folder),
            Place::Root | Place::Trash => None,
        }
    }
}
