//! The rows that access by shares rests on.

ghost use Rattle.std.specs.Prelude.{◌≡◌, ◌==◌, Some, filter_map, option_copied, IfSome};
ghost use Rattle.nf_access.specs.Access.{by_chains};
ghost use Rattle.nf_access.specs.Shares.{follows, receives, share_row};
ghost use Rattle.nf_defs.specs.People.{is_member_of};
ghost use Rattle.nf_defs.specs.Tree.{is_under};
ghost use Rattle.nf_grants.specs.Grants.{grant_to};

use nf_access::Facts;
use nf_base::{Act, GroupId, NodeId, ShareId, ShareRow, UserId};
use nf_defs::Seeker;
use nf_people::People;
use nf_shares::{Entry, Shares, receives};
use nf_tree::Tree;
use std::marker::Model;

/// Members, places and shares, as they stand: what is asked of them is never stale.
#[derive(Drop)]
pub struct Ground<'a> {
    people: &'a People,
    tree: &'a Tree,
    shares: &'a Shares,
}

impl<'a> Model for Ground<'a> {
    ghost use Rattle.nf_access.specs.Shares.{Ground};

    ghost Value = { Ground };

    ghost view = { λ ground. record { members = ground.people.now.members; nodes = ground.tree.now.rows; shares = ground.shares.now.rows } };
}

impl<'a> Ground<'a> {
    pub fn new(people: &'a People, tree: &'a Tree, shares: &'a Shares) -> Self
        ensures { result ≡ record { members = people.now.members; nodes = tree.now.rows; shares = shares.now.rows } }
    {
        Ground {
            people,
            tree,
            shares,
        }
    }

    pub(crate) fn shares(&self) -> &Shares
        ensures { result.now.rows ≡ self.now.shares }
    {
        self.shares
    }

    /// The entries of a node's shares: they give what all shares give there.
    pub(crate) fn entries(&self, node: NodeId) -> &[Entry<NodeId>]
        ensures { (who : _) → filter_map (λ entry. grant_to self.now who entry.share) result.now ≡ by_chains self.now who node }
    {
        let shares = self.shares;
        shares.entries(node)
    }

    /// The row of a share, which is that of its number.
    pub(crate) fn share(&self, id: ShareId) -> Option<&ShareRow>
        ensures row { option_copied result ≡ share_row self.now.shares id }
        ensures own { IfSome (option_copied result) (λ share. share_row self.now.shares share.id ≡ Some share) }
    {
        let shares = self.shares;
        shares.row(id)
    }

    pub(crate) fn is_under(&self, node: NodeId, top: NodeId) -> bool
        ensures { result ≡ is_under self.now.nodes node top }
    {
        let tree = self.tree;
        tree.under(node, top)
    }

    /// Whether the seeker receives the share.
    pub(crate) fn receives(&self, seeker: Seeker, share: &ShareRow) -> bool
        ensures { result ≡ receives self.now.members seeker share.now }
    {
        receives(self, seeker, share)
    }

    /// Whether the share may follow that parent.
    pub(crate) fn follows(&self, parent: &ShareRow, share: &ShareRow) -> bool
        ensures { result ≡ follows self.now parent.now share.now }
    {
        parent.perms.has(Act::Share)
            && receives(self, Seeker::User(share.initiator), parent)
            && self.is_under(share.node, parent.node)
    }
}

/// Who belongs to which group, by the people's rows.
impl<'a> Facts for Ground<'a> {
    ghost members = { λ ground. ground.members };

    fn is_member(&self, group: GroupId, user: UserId) -> bool {
        let people = self.people;
        people.is_member(group, user)
    }
}
