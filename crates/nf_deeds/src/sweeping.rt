//! What goes of the trash of all users and of their uploads where nobody asks for anything.

ghost use Rattle.std.specs.Prelude.{◌≡◌, ◌++◌, filter, IfOk, OnOk};
ghost use Rattle.nf_words.specs.Prelude.{abandons, AreSound, is_idle, owners_of, swept};
ghost use Rattle.nf_words.specs.declared.answer.Deed.TheVariants as deeds;

use crate::discarding::{done, push_purges};
use crate::going::gone_by;
use crate::quotas::quota_of;
use nf_base::{ItemRow, Moment, Name, UploadRow, UserId};
use nf_view::View;
use nf_words::{Allowed, Deed, MAX_IDLE, Report};
use std::alloc::{AllocError, Global};
use std::collections::BTreeSet;

/// Of the trash of each user goes what it doesn't hold any more, and so do the uploads that nobody sent a chunk of for a day.
pub fn swept(alloc: Global, view: &View<'_>, moment: Moment) -> Result<Allowed, AllocError>
    requires { AreSound view.now.tables }
    ensures { IfOk result (λ allowed. allowed ≡ swept view.now.tables moment) }
{
    let mut deeds = Vec::new(alloc);
    for user in owners_of(alloc, view.items().rows())? {
        let gone = gone_by(alloc, view, moment, quota_of(view, user), user)?;
        push_purges(&mut deeds, &gone)?;
    }
    push_idle(&mut deeds, moment, view.uploads().uploads())?;
    Ok(done(deeds, Report::Plain))
}

/// Uploads go that nobody sent a chunk of for a day.
fn push_idle(deeds: &mut Vec<Deed>, moment: Moment, uploads: &[UploadRow]) -> Result<(), AllocError>
    ensures { OnOk result (deeds.new.items ≡ deeds.old.items ++ abandons (filter (is_idle moment) uploads.now)) }
{
    for upload in uploads {
        if is_idle(moment, upload) {
            deeds.push(abandon(upload.user, &upload.dir)?)?;
        }
    }
    Ok(())
}

fn is_idle(moment: Moment, upload: &UploadRow) -> bool
    ensures { result ≡ is_idle moment upload.now }
{
    let touched = u128::from(upload.touched.seconds());
    touched + u128::from(MAX_IDLE) <= u128::from(moment.seconds())
}

/// Whose items there are, each user once.
fn owners_of(alloc: Global, items: &[ItemRow]) -> Result<Vec<UserId>, AllocError>
    ensures { IfOk result (λ owners. owners.items ≡ owners_of items.now) }
{
    let mut owners = Vec::new(alloc);
    let mut seen = BTreeSet::new(alloc);
    for item in items {
        if seen.insert(item.owner)? {
            owners.push(item.owner)?;
        }
    }
    Ok(owners)
}

/// That an upload goes.
pub fn abandon(user: UserId, dir: &Name) -> Result<Deed, AllocError>
    ensures { IfOk result (λ deed. deed ≡ deeds.Abandon user dir.now) }
{
    Ok(Deed::Abandon {
        user,
        dir: dir.copy()?,
    })
}
