//! What chains give, by walking them up.

ghost use Rattle.std.specs.Prelude.{◌≡◌, [], Some, unwrap_or};
ghost use Rattle.nf_access.specs.Access.{grant_by};
ghost use Rattle.nf_access.specs.Shares.{chain_of, chain_up, chain_within, earlier, mask_of, share_row};
ghost use Rattle.nf_grants.specs.Grants.{grant_to};

use crate::ground::Ground;
use nf_base::{MAX_CHAIN, Moment, Perms, ShareId, ShareRow};
use nf_defs::{Grant, Seeker};

/// The earlier of two end moments, where there are any.
fn earlier(one: Option<Moment>, other: Option<Moment>) -> Option<Moment>
    ensures { result ≡ earlier one other }
{
    match (one, other) {
        (None, _) => other,
        (Some(_), None) => one,
        (Some(a), Some(b)) => Some(Moment::new(a.seconds().min(b.seconds()))),
    }
}

impl<'a> Ground<'a> {
    /// What every share of the share's chain allows, whether or not the chain stands; nothing where there is none.
    pub fn mask(&self, share: ShareId) -> Perms
        ensures { result ≡ mask_of (chain_of self.now.shares share) }
    {
        self.shares().mask(share)
    }

    /// What the share gives a seeker that receives it.
    pub(crate) fn grant_to(&self, seeker: Seeker, share: ShareId) -> Option<Grant>
        ensures { result ≡ grant_to self.now seeker share }
    {
        let share = self.share(share)?;
        if !self.receives(seeker, share) {
            return None;
        }
        self.grant_by(share)
    }

    /// What the share gives by its chain, where that stands.
    pub(crate) fn grant_by(&self, share: &ShareRow) -> Option<Grant>
        requires { share_row self.now.shares share.now.id ≡ Some share.now }
        ensures { result ≡ grant_by self.now share.now.id (chain_of self.now.shares share.now.id) }
    {
        self.standing(share, MAX_CHAIN - 1)
    }

    /// What the share gives by its chain, where at most so many shares are above it and the chain stands.
    fn standing(&self, share: &ShareRow, above: usize) -> Option<Grant>
        ensures { result ≡ grant_by self.now share.now.id (unwrap_or (chain_up share.now share.now.parent (chain_within above self.now.shares)) []) }
    {
        if share.ended {
            return None;
        }
        match share.parent {
            None if share.initiator == share.owner => Some(Grant {
                share: share.id,
                mask: share.perms,
                until: share.until,
            }),
            None => None,
            Some(parent) => {
                if above == 0 {
                    return None;
                }
                let parent = self.share(parent)?;
                if !self.follows(parent, share) {
                    return None;
                }
                let grant = self.standing(parent, above - 1)?;
                Some(Grant {
                    share: share.id,
                    mask: share.perms.and(grant.mask),
                    until: earlier(share.until, grant.until),
                })
            }
        }
    }
}
