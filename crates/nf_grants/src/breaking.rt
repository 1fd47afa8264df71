//! Where access is broken.

ghost use Rattle.std.specs.Prelude.{◌≡◌, [], IsTrue, is_some, None, option_copied, option_map, unwrap_or};
ghost use Rattle.nf_access.specs.Broken.{act_faults, broken_in, cause_at, first_of, first_received, passing_faults};
ghost use Rattle.nf_access.specs.Laws.{IsBounded, IsRefused};
ghost use Rattle.nf_access.specs.Shares.{chain_up, chain_within};
ghost use Rattle.nf_grants.specs.Grants.{Tells};

use crate::ground::Ground;
use nf_access::Cause;
use nf_base::{Act, MAX_CHAIN, Moment, NodeId, ShareId, ShareRow};
use nf_defs::Seeker;
use nf_shares::is_before;

/// What a refusal comes to.
#[derive(Clone, Copy, PartialEq, Eq)]
pub enum Broken {
    /// The seeker receives no share on the node.
    NoShare,
    /// That share is the first broken one of the chain that the seeker's first share on the node stands on.
    Link { share: ShareId, cause: Cause },
}

/// Whether the share lacks the act.
fn act_cause(share: &ShareRow, act: Option<Act>) -> Option<Cause>
    ensures { result ≡ first_of (act_faults share.now act) }
{
    match act {
        Some(act) if !share.perms.has(act) => Some(Cause::Narrowed),
        _ => None,
    }
}

impl<'a> Ground<'a> {
    /// Why the seeker was refused the act on the node, or everything there where no act is given.
    pub fn broken(&self, seeker: Seeker, node: NodeId, act: Option<Act>, now: Moment) -> Broken
        requires bounded { IsBounded self.now }
        requires refused { IsRefused self.now now seeker act node }
        ensures { Tells self.now now act (first_received self.now.members self.now.shares seeker node) result }
    {
        let Some(first) = self.first_received(seeker, node) else {
            return Broken::NoShare;
        };
        let (share, cause) = self
            .broken_in(now, act, None, first, MAX_CHAIN - 1)
            .unwrap();
        Broken::Link { share, cause }
    }

    /// The first share on the node that the seeker receives.
    fn first_received(&self, seeker: Seeker, node: NodeId) -> Option<&ShareRow>
        requires { IsBounded self.now }
        ensures { option_copied result ≡ first_received self.now.members self.now.shares seeker node }
    {
        let first = self.shares().first_received(self, seeker, node)?;
        self.share(first)
    }

    /// The first broken share of a chain that ends with this share, from its owner's end; next is the share that follows it.
    fn broken_in(
        &self,
        now: Moment,
        act: Option<Act>,
        next: Option<&ShareRow>,
        share: &ShareRow,
        above: usize,
    ) -> Option<(ShareId, Cause)>
        requires { IsTrue (is_some (chain_up share.now share.now.parent (chain_within above self.now.shares))) }
        ensures { result ≡ broken_in self.now now act (option_copied next.entry) (unwrap_or (chain_up share.now share.now.parent (chain_within above self.now.shares)) []) }
    {
        let Some(parent) = share.parent else {
            return self.broken_at(now, act, share, next);
        };
        let parent = self.share(parent)?;
        match self.broken_in(now, act, Some(share), parent, above - 1) {
            Some(found) => Some(found),
            None => self.broken_at(now, act, share, next),
        }
    }

    /// The share, where something is wrong with it, and what is.
    fn broken_at(
        &self,
        now: Moment,
        act: Option<Act>,
        share: &ShareRow,
        next: Option<&ShareRow>,
    ) -> Option<(ShareId, Cause)>
        ensures { result ≡ option_map (λ cause. (share.now.id, cause)) (cause_at self.now now act share.now (option_copied next.entry)) }
    {
        let cause = self.cause_at(now, act, share, next)?;
        Some((share.id, cause))
    }

    /// What is first wrong with a share.
    fn cause_at(
        &self,
        now: Moment,
        act: Option<Act>,
        share: &ShareRow,
        next: Option<&ShareRow>,
    ) -> Option<Cause>
        ensures { result ≡ cause_at self.now now act share.now (option_copied next.entry) }
    {
        if share.ended {
            return Some(Cause::Ended);
        }
        if !is_before(now, share.until) {
            return Some(Cause::Expired);
        }
        match self.passing_cause(share, next) {
            Some(cause) => Some(cause),
            None => act_cause(share, act),
        }
    }

    /// Why the share may not be passed on as it was.
    fn passing_cause(&self, share: &ShareRow, next: Option<&ShareRow>) -> Option<Cause>
        ensures { result ≡ first_of (passing_faults self.now share.now (option_copied next.entry)) }
    {
        let next = next?;
        if !share.perms.has(Act::Share) {
            return Some(Cause::NoReshare);
        }
        if !self.receives(Seeker::User(next.initiator), share) {
            return Some(Cause::NotMember);
        }
        if !self.is_under(next.node, share.node) {
            return Some(Cause::MovedOut);
        }
        None
    }
}
