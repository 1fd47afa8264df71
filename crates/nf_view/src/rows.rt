//! Rows of a view, found by their keys, and rows made of them.

ghost use Rattle.std.specs.Prelude.{◌≡◌, IfOk, option_copied, true};
ghost use Rattle.nf_words.specs.Versions.{version_row, versions_of};
ghost use Rattle.nf_defs.specs.Prelude.{item_row};
ghost use Rattle.nf_base.specs.declared.changes.RowKey.TheVariants as keys;
ghost use Rattle.nf_words.specs.Deeds.{ended_row};
ghost use Rattle.nf_base.specs.declared.changes.Change.TheVariants.{Drop};

use crate::view::View;
use nf_base::{Change, ItemRow, Moment, NodeId, RowKey, ShareRow, VersionRow};
use nf_table::VersionKey;
use std::alloc::AllocError;

/// The versions of a node, the oldest first.
pub fn versions_of<'a>(view: &'a View<'_>, node: NodeId) -> &'a [VersionRow]
    ensures { result.now ≡ versions_of view.now.tables.versions node }
{
    view.versions().front(&node)
}

/// The one of that moment.
pub fn version_row<'a>(view: &'a View<'_>, node: NodeId, at: Moment) -> Option<&'a VersionRow>
    ensures { option_copied result ≡ version_row view.now.tables.versions node at }
{
    view.versions().find(&VersionKey { node, at })
}

/// The item of a node.
pub fn item_row<'a>(view: &'a View<'_>, node: NodeId) -> Option<&'a ItemRow>
    ensures { option_copied result ≡ item_row view.now.tables.items node }
{
    view.items().find(node)
}

/// The row of a share that ended.
pub fn ended(share: &ShareRow) -> Result<ShareRow, AllocError>
    ensures { IfOk result (λ row. row ≡ ended_row share.now) }
{
    let mut row = share.clone()?;
    row.ended = true;
    Ok(row)
}

/// The change that drops a version.
pub fn dropped(node: NodeId, at: Moment) -> Change
    ensures { result ≡ Drop (keys.Version node at) }
{
    Change::Drop(RowKey::Version { node, at })
}
