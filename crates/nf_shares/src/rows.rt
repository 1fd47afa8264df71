//! What is asked of one row of a share.

ghost use Rattle.std.specs.Prelude.{◌≡◌, ◌==◌};
ghost use Rattle.nf_access.specs.Shares.{is_before, is_link, receives};
ghost use Rattle.nf_defs.specs.declared.Seeker.TheVariants as seeker;
ghost use Rattle.nf_shares.specs.Kept.{is_child_of};
ghost use Rattle.nf_access.specs.Making.{is_again, is_self_share, is_same_recipient};

use nf_access::Facts;
use nf_base::{Moment, ShareId, ShareKind, ShareRow, UserId};
use nf_defs::Seeker;

/// Whether the seeker receives the share.
pub fn receives<F: Facts>(facts: &F, seeker: Seeker, row: &ShareRow) -> bool
    ensures { result ≡ receives (F.members facts.now) seeker row.now }
{
    match seeker {
        Seeker::User(user) => is_for(facts, user, row),
        Seeker::Link(link) => row.id == link,
    }
}

/// Whether the user receives the share.
fn is_for<F: Facts>(facts: &F, user: UserId, row: &ShareRow) -> bool
    ensures { result ≡ receives (F.members facts.now) (seeker.User user) row.now }
{
    let named = match &row.kind {
        ShareKind::User(own) => *own == user,
        ShareKind::Group(group) => facts.is_member(*group, user),
        ShareKind::Link(_) => false,
    };
    named && row.owner != user
}

/// Whether it is the link of that token.
pub(crate) fn is_link(token: &[u8], kind: &ShareKind) -> bool
    ensures { result ≡ is_link token.now kind.now }
{
    match kind {
        ShareKind::Link(own) => own.as_bytes() == token,
        _ => false,
    }
}

pub(crate) fn is_child_of(id: ShareId, parent: Option<ShareId>) -> bool
    ensures { result ≡ is_child_of id parent }
{
    match parent {
        Some(parent) => parent == id,
        None => false,
    }
}

// ---- making one

/// Whether it is for who made it or for its node's owner.
pub fn is_self_share(row: &ShareRow) -> bool
    ensures { result ≡ is_self_share row.now row.now.kind }
{
    match &row.kind {
        ShareKind::User(user) => *user == row.initiator || *user == row.owner,
        _ => false,
    }
}

fn is_same_recipient(one: &ShareKind, other: &ShareKind) -> bool
    ensures { result ≡ is_same_recipient one.now other.now }
{
    match (one, other) {
        (ShareKind::User(one), ShareKind::User(other)) => one == other,
        (ShareKind::Group(one), ShareKind::Group(other)) => one == other,
        _ => false,
    }
}

/// Whether the end moment is still to come, where there is one.
pub fn is_before(now: Moment, until: Option<Moment>) -> bool
    ensures { result ≡ is_before now until }
{
    match until {
        Some(end) => now < end,
        None => true,
    }
}

/// Whether the other share gives the same already.
pub(crate) fn is_again(row: &ShareRow, now: Moment, other: &ShareRow) -> bool
    ensures { result ≡ is_again row.now now other.now }
{
    !other.ended
        && is_before(now, other.until)
        && other.node == row.node
        && other.initiator == row.initiator
        && is_same_recipient(&other.kind, &row.kind)
}
