//! What is granted on a node.

ghost use Rattle.std.specs.Prelude.{◌≡◌, find, option_map, IfOk};
ghost use Rattle.std.specs.List.{list_any};
ghost use Rattle.nf_access.specs.Access.{allows, by_chains, is_open};
ghost use Rattle.nf_access.specs.Making.{passes_on};
ghost use Rattle.nf_grants.specs.Grants.{serves};

use crate::ground::Ground;
use nf_access::is_part;
use nf_base::{Act, Moment, NodeId, Perms, ShareId};
use nf_defs::{Grant, Seeker};
use nf_shares::is_before;
use std::alloc::{AllocError, Global};

/// What a grant is wanted for.
#[derive(Clone, Copy)]
enum Purpose {
    /// To do an act.
    Allow(Act),
    /// To share with those permissions what it is on.
    PassOn(Perms),
}

/// Whether the grant hasn't ended.
fn is_open(grant: &Grant, now: Moment) -> bool
    ensures { result ≡ is_open now grant.now }
{
    is_before(now, grant.until)
}

/// Whether the grant lets its seeker do the act.
fn allows(grant: &Grant, act: Act, now: Moment) -> bool
    ensures { result ≡ allows now act grant.now }
{
    is_open(grant, now) && grant.mask.has(act)
}

/// Whether what the grant is on may be shared by it, with those permissions.
fn passes_on(grant: &Grant, perms: Perms, now: Moment) -> bool
    ensures { result ≡ passes_on now perms grant.now }
{
    allows(grant, Act::Share, now) && is_part(perms, grant.mask)
}

/// Whether the grant serves the purpose.
fn serves(grant: &Grant, purpose: Purpose, now: Moment) -> bool
    ensures { result ≡ serves now purpose grant.now }
{
    match purpose {
        Purpose::Allow(act) => allows(grant, act, now),
        Purpose::PassOn(perms) => passes_on(grant, perms, now),
    }
}

impl<'a> Ground<'a> {
    /// What the seeker is granted on the node, by each share that it receives there and whose chain stands, in the order of the shares.
    pub fn grants(
        &self,
        alloc: Global,
        seeker: Seeker,
        node: NodeId,
    ) -> Result<Vec<Grant>, AllocError>
        ensures { IfOk result (λ grants. grants.items ≡ by_chains self.now seeker node) }
    {
        self.entries(node)
            .iter()
            .filter_map(|entry| self.grant_to(seeker, entry.share))
            .collect(alloc)
    }

    /// The least share that lets the seeker do the act on the node.
    pub fn allows(&self, seeker: Seeker, node: NodeId, act: Act, now: Moment) -> Option<ShareId>
        ensures { result ≡ option_map (λ grant. grant.share) (find (allows now act) (by_chains self.now seeker node)) }
    {
        self.first_grant(seeker, node, Purpose::Allow(act), now)
    }

    /// The least share by which the seeker may share the node with those permissions.
    pub fn passes_on(
        &self,
        seeker: Seeker,
        node: NodeId,
        perms: Perms,
        now: Moment,
    ) -> Option<ShareId>
        ensures { result ≡ option_map (λ grant. grant.share) (find (passes_on now perms) (by_chains self.now seeker node)) }
    {
        self.first_grant(seeker, node, Purpose::PassOn(perms), now)
    }

    /// The least share that the seeker receives on the node and whose grant serves the purpose.
    fn first_grant(
        &self,
        seeker: Seeker,
        node: NodeId,
        purpose: Purpose,
        now: Moment,
    ) -> Option<ShareId>
        ensures { result ≡ option_map (λ grant. grant.share) (find (serves now purpose) (by_chains self.now seeker node)) }
    {
        self.entries(node)
            .iter()
            .filter_map(|entry| self.grant_to(seeker, entry.share))
            .find(|grant| serves(grant, purpose, now))
            .map(|grant| grant.share)
    }

    /// Whether a grant of the seeker on the node hasn't ended.
    pub fn reaches(&self, seeker: Seeker, node: NodeId, now: Moment) -> bool
        ensures { result ≡ list_any (is_open now) (by_chains self.now seeker node) }
    {
        self.entries(node)
            .iter()
            .filter_map(|entry| self.grant_to(seeker, entry.share))
            .any(|grant| is_open(&grant, now))
    }
}
