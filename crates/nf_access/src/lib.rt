//! Access by shares: who receives one, the chain that it stands on, what that grants, and where it is broken. The words that its
//! definitions share, and what they come to.
#![tactic(auto)]

pub mod laws;
mod perms;

ghost use Rattle.std.specs.Prelude.{◌≡◌, List};
ghost use Rattle.nf_base.specs.declared.rows.MemberRow.{MemberRow};
ghost use Rattle.nf_defs.specs.People.{is_member_of};

use nf_base::{GroupId, UserId};
pub use perms::{is_part, nothing, perms_of_link, perms_of_share};

/// Why a share of a chain is broken. At one share the first of these that holds is told.
#[derive(Clone, Copy, PartialEq, Eq)]
pub enum Cause {
    /// It was ended, by whoever made it or by its node's owner.
    Ended,
    /// Its end moment came.
    Expired,
    /// It is passed on, and may not be.
    NoReshare,
    /// Whoever passed it on doesn't receive it.
    NotMember,
    /// What is passed on isn't under its node.
    MovedOut,
    /// It doesn't allow the act.
    Narrowed,
}

/// Who belongs to which group.
pub trait Facts {
    ghost members: { Self → List MemberRow };

    fn is_member(&self, group: GroupId, user: UserId) -> bool
        ensures { result ≡ is_member_of (members self.now) group user };
}
