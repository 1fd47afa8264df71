//! The rule that users have their roots, that nodes lead to them or into the trash, and that items are of what is in the trash.

ghost use Rattle.std.specs.Prelude.{◌≡◌, not, option_copied};
ghost use Rattle.nf_base.specs.declared.rows.Row.TheVariants as rows;
ghost use Rattle.nf_defs.specs.Prelude.{AreRising, tables_of};
ghost use Rattle.nf_rules.specs.Rules.{first_index, is_folder_for, is_from_kept, is_item_kept, is_placed, is_root_of, is_trashed_as, is_version_kept, leads};
ghost use Rattle.nf_opening.specs.Ways.{folder_above, is_own_top};

use crate::Loaded;
use crate::first::first;
use nf_base::{ItemRow, MAX_DEPTH, NodeKind, NodeRow, Place, Row, UserRow, VersionRow};

/// The first user who has no root, node that leads neither to one nor into the trash, or item of what isn't in its owner's trash.
pub(crate) fn first_astray(loaded: &Loaded, rows: &[Row]) -> Option<usize>
    requires tables { loaded.now ≡ tables_of rows.now }
    requires rising { AreRising loaded.now }
    ensures { result ≡ first_index (λ row. not (is_placed (tables_of rows.now) row)) rows.now }
{
    first(rows, |row| !is_placed(loaded, row))
}

fn is_placed(loaded: &Loaded, row: &Row) -> bool
    requires { AreRising loaded.now }
    ensures { result ≡ is_placed loaded.now row.now }
{
    match row {
        Row::User(row) => has_root(loaded, row),
        Row::Node(row) => leads(loaded, row),
        Row::Version(row) => is_version_kept(loaded, row),
        Row::Item(row) => is_item_kept(loaded, row),
        _ => true,
    }
}

fn has_root(loaded: &Loaded, user: &UserRow) -> bool
    requires { AreRising loaded.now }
    ensures { result ≡ is_placed loaded.now (rows.User user.now) }
{
    match loaded.node(user.root) {
        Some(root) => is_root_of(user, root),
        None => false,
    }
}

fn is_root_of(user: &UserRow, node: &NodeRow) -> bool
    ensures { result ≡ is_root_of user.now node.now }
{
    node.place == Place::Root
        && node.kind == NodeKind::Folder
        && node.owner == user.id
        && node.name.as_bytes() == user.name.as_bytes()
}

/// Whether the node leads to its owner's root or into the trash, at most `MAX_DEPTH` folders up.
fn leads(loaded: &Loaded, node: &NodeRow) -> bool
    requires { AreRising loaded.now }
    ensures { result ≡ leads loaded.now node.now }
{
    let mut at = node;
    for step in 0..MAX_DEPTH {
        let _ = step;
        match folder_above(loaded, at) {
            Some(folder) => at = folder,
            None => return is_own_top(loaded, at),
        }
    }
    is_own_top(loaded, at)
}

/// The folder that a node is in, where it has the same owner.
fn folder_above<'a>(loaded: &'a Loaded, node: &NodeRow) -> Option<&'a NodeRow>
    requires { AreRising loaded.now }
    ensures { option_copied result ≡ folder_above loaded.now node.now }
{
    let Place::Inside(folder) = node.place else {
        return None;
    };
    let folder = loaded.node(folder)?;
    if folder.kind == NodeKind::Folder && folder.owner == node.owner {
        Some(folder)
    } else {
        None
    }
}

fn is_own_top(loaded: &Loaded, node: &NodeRow) -> bool
    requires { AreRising loaded.now }
    ensures { result ≡ is_own_top loaded.now node.now }
{
    match node.place {
        Place::Root => match loaded.user(node.owner) {
            Some(user) => user.root == node.id,
            None => node.id.number() == 0,
        },
        Place::Inside(_) => false,
        Place::Trash => loaded.user(node.owner).is_some() && loaded.has_item(node.id),
    }
}

/// Whether the version is of a file, and has a content.
fn is_version_kept(loaded: &Loaded, row: &VersionRow) -> bool
    requires { AreRising loaded.now }
    ensures { result ≡ is_version_kept loaded.now row.now }
{
    match loaded.node(row.node) {
        Some(node) => node.kind == NodeKind::File && !row.content.pieces().is_empty(),
        None => false,
    }
}

/// Whether the item's node is in its owner's trash, and the folder that it was in is gone or a folder of the owner's.
fn is_item_kept(loaded: &Loaded, item: &ItemRow) -> bool
    requires { AreRising loaded.now }
    ensures { result ≡ is_item_kept loaded.now item.now }
{
    match loaded.node(item.node) {
        Some(node) => is_trashed_as(item, node) && is_from_kept(loaded, item),
        None => false,
    }
}

/// Whether the node is in the trash of the item's owner.
fn is_trashed_as(item: &ItemRow, node: &NodeRow) -> bool
    ensures { result ≡ is_trashed_as item.now node.now }
{
    node.place == Place::Trash && node.owner == item.owner
}

fn is_from_kept(loaded: &Loaded, item: &ItemRow) -> bool
    requires { AreRising loaded.now }
    ensures { result ≡ is_from_kept loaded.now item.now }
{
    match loaded.node(item.from) {
        Some(from) => is_folder_for(item, from),
        None => true,
    }
}

/// Whether the node is a folder of the item's owner.
fn is_folder_for(item: &ItemRow, from: &NodeRow) -> bool
    ensures { result ≡ is_folder_for item.now from.now }
{
    from.kind == NodeKind::Folder && from.owner == item.owner
}
