//! The mounts that the root of a user lists.

ghost use Rattle.std.specs.Prelude.{◌≡◌, map, IfOk};
ghost use Rattle.nf_access.specs.Access.{by_chains};
ghost use Rattle.nf_access.specs.Mounts.{listed};

use crate::ground::Ground;
use nf_base::{Moment, NodeId, UserId};
use nf_defs::Seeker;
use nf_mounts::Mounts;
use std::alloc::{AllocError, Global};

impl<'a> Ground<'a> {
    /// The nodes of the user's mounts that are listed, by rising number.
    pub fn listed(
        &self,
        alloc: Global,
        mounts: &Mounts,
        user: UserId,
        now: Moment,
    ) -> Result<Vec<NodeId>, AllocError>
        ensures { IfOk result (λ nodes. nodes.items ≡ map (λ row. row.node) (listed (by_chains self.now) now mounts.now.rows user)) }
    {
        mounts
            .of_user(user)
            .iter()
            .filter(|row| !row.left && self.reaches(Seeker::User(user), row.node, now))
            .map(|row| row.node)
            .collect(alloc)
    }
}
