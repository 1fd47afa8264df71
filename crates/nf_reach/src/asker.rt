//! Who asks.

ghost use Rattle.std.specs.Prelude.{◌≡◌, ◌∷◌, [], find, option_map};
ghost use Rattle.std.specs.List.{list_any};
ghost use Rattle.nf_access.specs.Access.{allows, by_chains, is_open};
ghost use Rattle.nf_access.specs.Laws.{IsBounded, IsRefused};
ghost use Rattle.nf_access.specs.Making.{passes_on};
ghost use Rattle.nf_access.specs.Shares.{chain_of, mask_of, receives};
ghost use Rattle.nf_defs.specs.declared.Seeker.TheVariants.{User};
ghost use Rattle.nf_reach.specs.Asking.{refusal_for, user_in, way_for};
ghost use Rattle.nf_words.specs.Calls.{behind, is_itself, mount_for, mounted};
ghost use Rattle.nf_words.specs.Needed.{is_owner};
ghost use Rattle.nf_words.specs.Reached.{broken_by, unreached_by};

use crate::ways::{Way, is_one};
use nf_base::{Act, Moment, Name, NodeId, Perms, ShareId, ShareRow, UserId};
use nf_defs::Seeker;
use nf_grants::{Broken, Ground};
use nf_mounts::Mounts;
use nf_people::People;
use nf_shares::{Shares, receives};
use nf_tree::Tree;
use nf_words::Denial;
use std::marker::Model;

/// Who asks at a moment, what its paths lead from, and the rows that access goes by.
#[derive(Drop)]
pub struct Asker<'a> {
    base: Ground<'a>,
    tree: &'a Tree,
    mounts: &'a Mounts,
    seeker: Seeker,
    root: NodeId,
    moment: Moment,
}

impl<'a> Model for Asker<'a> {
    ghost use Rattle.std.specs.Prelude.{◌≡◌};
    ghost use Rattle.nf_access.specs.Laws.{IsBounded};
    ghost use Rattle.nf_reach.specs.Asking.{Asking};

    ghost Value = { Asking };

    ghost view = { λ a. record { base = a.base; mounts = a.mounts.now.rows; seeker = a.seeker; root = a.root; moment = a.moment } };

    ghost invariant = { λ a. (a.tree.now.rows ≡ a.base.nodes) × IsBounded a.base };
}

impl<'a> Asker<'a> {
    pub fn new(
        people: &'a People,
        tree: &'a Tree,
        shares: &'a Shares,
        mounts: &'a Mounts,
        seeker: Seeker,
        root: NodeId,
        moment: Moment,
    ) -> Self
        requires { IsBounded (record { members = people.now.members; nodes = tree.now.rows; shares = shares.now.rows }) }
        ensures base { result.base ≡ record { members = people.now.members; nodes = tree.now.rows; shares = shares.now.rows } }
        ensures mounts { result.mounts ≡ mounts.now.rows }
        ensures seeker { result.seeker ≡ seeker }
        ensures root { result.root ≡ root }
        ensures moment { result.moment ≡ moment }
    {
        Asker {
            base: Ground::new(people, tree, shares),
            tree,
            mounts,
            seeker,
            root,
            moment,
        }
    }

    pub(crate) fn tree(&self) -> &Tree
        ensures { result.now.rows ≡ self.now.base.nodes }
    {
        self.tree
    }

    /// What the paths lead from: the root of a user, and what a link is of.
    pub fn root(&self) -> NodeId
        ensures { result ≡ self.now.root }
    {
        self.root
    }

    pub fn seeker(&self) -> Seeker
        ensures { result ≡ self.now.seeker }
    {
        self.seeker
    }

    /// The user who asks. By a link none does, and no user has the number 0.
    pub fn user(&self) -> UserId
        ensures { result ≡ user_in self.now.seeker }
    {
        match self.seeker {
            Seeker::User(user) => user,
            Seeker::Link(_) => UserId::new(0),
        }
    }

    pub(crate) fn all_mounts(&self) -> &Mounts
        ensures { result.now.rows ≡ self.now.mounts }
    {
        self.mounts
    }

    // ---- paths

    /// Where a path leads.
    pub fn way(&self, names: &[Name]) -> Way
        ensures { result ≡ way_for self.now names.now }
    {
        match self.mount_for(names) {
            Some(mount) => Way {
                mount: Some(mount),
                itself: self.is_itself(names),
                place: self.tree().find(mount, self.behind(names)),
            },
            None => Way {
                mount: None,
                itself: false,
                place: self.tree().find(self.root, names),
            },
        }
    }

    /// The node of the mount that a path goes by: all paths of a link go by what it is of.
    fn mount_for(&self, names: &[Name]) -> Option<NodeId>
        ensures { result ≡ mount_for self.now.base.nodes self.now.mounts self.now.seeker self.now.root names.now }
    {
        match self.seeker {
            Seeker::User(user) => self.mounted(user, names),
            Seeker::Link(_) => Some(self.root),
        }
    }

    /// The same of a user's path.
    fn mounted(&self, user: UserId, names: &[Name]) -> Option<NodeId>
        ensures { result ≡ mounted self.now.base.nodes self.now.mounts user self.now.root names.now }
    {
        let first = names.first()?;
        if self.tree().child(self.root, first).is_some() {
            return None;
        }
        self.all_mounts().at(user, first)
    }

    /// Whether the path is that of the user's mount itself.
    fn is_itself(&self, names: &[Name]) -> bool
        ensures { result ≡ is_itself self.now.seeker names.now }
    {
        match self.seeker {
            Seeker::User(_) => is_one(names),
            Seeker::Link(_) => false,
        }
    }

    /// The names behind the mount that a path goes by.
    fn behind<'b>(&self, names: &'b [Name]) -> &'b [Name]
        ensures { result.now ≡ behind self.now.seeker names.now }
    {
        match self.seeker {
            Seeker::User(_) => names.get(1..).unwrap_or(&[]),
            Seeker::Link(_) => names,
        }
    }

    // ---- access

    /// Whether a user asks who owns the node.
    pub fn owns(&self, node: NodeId) -> bool
        ensures { result ≡ is_owner self.now.base.nodes self.now.seeker node }
    {
        match self.seeker {
            Seeker::User(user) => self.is_owner(user, node),
            Seeker::Link(_) => false,
        }
    }

    fn is_owner(&self, user: UserId, node: NodeId) -> bool
        ensures { result ≡ is_owner self.now.base.nodes (User user) node }
    {
        match self.tree().node(node) {
            Some(row) => row.owner == user,
            None => false,
        }
    }

    /// Whether a grant on the mount's node is open.
    pub(crate) fn is_reached(&self, mount: NodeId) -> bool
        ensures { result ≡ list_any (is_open self.now.moment) (by_chains self.now.base self.now.seeker mount) }
    {
        self.base.reaches(self.seeker, mount, self.moment)
    }

    /// Why who asks isn't reached by the mount of a node, where that is so.
    pub fn unreached(&self, mount: NodeId) -> Option<Denial>
        ensures { result ≡ unreached_by (by_chains self.now.base) self.now.base self.now.seeker self.now.moment mount }
    {
        if self.is_reached(mount) {
            None
        } else {
            Some(self.broken_by(None, mount))
        }
    }

    /// What is told where the act may not be done by the mount, or who asks isn't reached where none is asked for.
    fn broken_by(&self, act: Option<Act>, mount: NodeId) -> Denial
        requires { IsRefused self.now.base self.now.moment self.now.seeker act mount }
        ensures { result ≡ broken_by self.now.base self.now.seeker self.now.moment act mount }
    {
        match self.base.broken(self.seeker, mount, act, self.moment) {
            Broken::NoShare => Denial::NoShare,
            Broken::Link { share, cause } => Denial::BrokenLink { share, cause },
        }
    }

    /// Whether a grant on the mount's node lets who asks do the act.
    pub(crate) fn is_granted(&self, act: Act, mount: NodeId) -> bool
        ensures { result ≡ list_any (allows self.now.moment act) (by_chains self.now.base self.now.seeker mount) }
    {
        let share = self.base.allows(self.seeker, mount, act, self.moment);
        share.is_some()
    }

    /// Why the act may not be done at a node by that mount, where that is so.
    pub fn refused(&self, act: Act, node: NodeId, mount: Option<NodeId>) -> Option<Denial>
        ensures { result ≡ refusal_for self.now (record { act = act; node = node; mount = mount } ∷ []) }
    {
        if self.owns(node) {
            return None;
        }
        match mount {
            Some(mount) if self.is_granted(act, mount) => None,
            Some(mount) => Some(self.broken_by(Some(act), mount)),
            None => Some(Denial::NoShare),
        }
    }

    // ---- shares

    /// The least share by which who asks may share the node of a mount with those permissions.
    pub fn passes_on(&self, perms: Perms, mount: NodeId) -> Option<ShareId>
        ensures { result ≡ option_map (λ grant. grant.share) (find (passes_on self.now.moment perms) (by_chains self.now.base self.now.seeker mount)) }
    {
        self.base.passes_on(self.seeker, mount, perms, self.moment)
    }

    /// What every share of the share's chain allows, whether or not the chain stands; nothing where there is none.
    pub fn mask(&self, share: ShareId) -> Perms
        ensures { result ≡ mask_of (chain_of self.now.base.shares share) }
    {
        self.base.mask(share)
    }

    /// Whether the share is for the user who asks.
    pub fn receives(&self, row: &ShareRow) -> bool
        ensures { result ≡ receives self.now.base.members (User (user_in self.now.seeker)) row.now }
    {
        receives(&self.base, Seeker::User(self.user()), row)
    }
}
