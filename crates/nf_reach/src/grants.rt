//! What is granted to who asks, as a listing tells it.

ghost use Rattle.std.specs.Prelude.{◌≡◌, ◌≤◌, ◌==◌, ◌&&◌, filter, not};
ghost use Rattle.std.specs.List.{list_any};
ghost use Rattle.nf_access.specs.Access.{by_chains, is_open};
ghost use Rattle.nf_base.specs.Perms.{bit_of};
ghost use Rattle.nf_words.specs.Listing.{bit_by, bits_by, granted_by};

use crate::asker::Asker;
use nf_access::nothing;
use nf_base::{Act, MountRow, NodeId, Perms, UserId};

impl<'a> Asker<'a> {
    /// What who asks may do by its grants on a node.
    pub fn permissions(&self, node: NodeId) -> Perms
        ensures { result ≡ bits_by self.now.moment (by_chains self.now.base self.now.seeker node) }
    {
        let bits = self.bit_by(Act::Read, node)
            + self.bit_by(Act::Update, node)
            + self.bit_by(Act::Create, node)
            + self.bit_by(Act::Delete, node)
            + self.bit_by(Act::Share, node);
        Perms::read(bits).unwrap()
    }

    /// What who asks may do with what others own, by the mount that a path goes by.
    pub fn granted_by(&self, mount: Option<NodeId>) -> Perms
        ensures { result ≡ granted_by (by_chains self.now.base) self.now.seeker self.now.moment mount }
    {
        match mount {
            Some(mount) => self.permissions(mount),
            None => nothing(),
        }
    }

    fn bit_by(&self, act: Act, node: NodeId) -> u8
        ensures bit { result ≡ bit_by self.now.moment (by_chains self.now.base self.now.seeker node) act }
        ensures few { result ≤ bit_of act }
    {
        if self.is_granted(act, node) {
            act.bit()
        } else {
            0
        }
    }

    /// A user's mounts, with those that were left.
    pub fn mounts(&self, user: UserId) -> &[MountRow]
        ensures { result.now ≡ filter (λ row. row.user == user) self.now.mounts }
    {
        self.all_mounts().of_user(user)
    }

    /// Whether a mount of who asks is listed.
    pub fn lists(&self, mount: &MountRow) -> bool
        ensures { result ≡ (not mount.now.left && list_any (is_open self.now.moment) (by_chains self.now.base self.now.seeker mount.now.node)) }
    {
        !mount.left && self.is_reached(mount.node)
    }
}
