//! Copies of what is told.

ghost use Rattle.std.specs.Prelude.{◌≡◌, IfOk};

use nf_words::{Recipient, ShareLine};
use std::alloc::AllocError;

pub(crate) fn copy_share(line: &ShareLine) -> Result<ShareLine, AllocError>
    ensures { IfOk result (λ copy. copy ≡ line.now) }
{
    Ok(ShareLine {
        to: copy_recipient(&line.to)?,
        owner: line.owner.copy()?,
        initiator: line.initiator.copy()?,
        ..*line
    })
}

fn copy_recipient(to: &Recipient) -> Result<Recipient, AllocError>
    ensures { IfOk result (λ copy. copy ≡ to.now) }
{
    match to {
        Recipient::User(name) => Ok(Recipient::User(name.copy()?)),
        Recipient::Group(name) => Ok(Recipient::Group(name.copy()?)),
        Recipient::Link(token) => Ok(Recipient::Link(token.copy()?)),
    }
}
