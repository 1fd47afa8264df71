//! The rule that no name is there twice, among the users, the groups, the children of a folder with the mounts in it, or the links.

ghost use Rattle.std.specs.Prelude.{◌≡◌, IfOk, option_map};
ghost use Rattle.nf_base.specs.declared.rows.Row.TheVariants as rows;
ghost use Rattle.nf_defs.specs.Prelude.{AreRising, tables_of};
ghost use Rattle.nf_rules.specs.Keys.{child_key, link_key, name_key};
ghost use Rattle.nf_rules.specs.Rules.{first_index, is_namesake};
ghost use Rattle.nf_opening.specs.Names.{name_numbers};

use crate::Loaded;
use crate::again::first_again;
use nf_base::{MountRow, Name, NodeId, NodeRow, Place, Row, ShareKind};
use std::alloc::{AllocError, Global};

/// A name, and among what it has to be alone.
#[derive(PartialEq, Eq, PartialOrd, Ord, Drop)]
pub(crate) enum NameKey {
    User(Name),
    Group(Name),
    Child { folder: NodeId, name: Name },
    Link(Name),
}

/// The first row whose name another has.
pub(crate) fn first_namesake(
    alloc: Global,
    loaded: &Loaded,
    rows: &[Row],
) -> Result<Option<usize>, AllocError>
    requires tables { loaded.now ≡ tables_of rows.now }
    requires rising { AreRising loaded.now }
    ensures { IfOk result (λ at. at ≡ first_index (is_namesake rows.now) rows.now) }
{
    let mut keys = Vec::new(alloc);
    for row in rows {
        keys.push(name_key(loaded, row)?)?;
    }
    first_again(alloc, keys)
}

fn name_key(loaded: &Loaded, row: &Row) -> Result<Option<NameKey>, AllocError>
    requires { AreRising loaded.now }
    ensures { IfOk result (λ key. option_map name_numbers key ≡ name_key loaded.now row.now) }
{
    Ok(match row {
        Row::User(row) => Some(NameKey::User(row.name.clone()?)),
        Row::Group(row) => Some(NameKey::Group(row.name.clone()?)),
        Row::Node(row) => child_key(row)?,
        Row::Share(row) => link_key(&row.kind)?,
        Row::Mount(row) => mount_key(loaded, row)?,
        _ => None,
    })
}

fn child_key(row: &NodeRow) -> Result<Option<NameKey>, AllocError>
    ensures { IfOk result (λ key. option_map name_numbers key ≡ child_key row.now.place row.now.name) }
{
    match row.place {
        Place::Inside(folder) => Ok(Some(NameKey::Child {
            folder,
            name: row.name.clone()?,
        })),
        Place::Root | Place::Trash => Ok(None),
    }
}

fn link_key(to: &ShareKind) -> Result<Option<NameKey>, AllocError>
    ensures { IfOk result (λ key. option_map name_numbers key ≡ link_key to.now) }
{
    match to {
        ShareKind::Link(token) => Ok(Some(NameKey::Link(token.clone()?))),
        ShareKind::User(_) | ShareKind::Group(_) => Ok(None),
    }
}

/// A mount that wasn't left stands among the children of its user's root.
fn mount_key(loaded: &Loaded, row: &MountRow) -> Result<Option<NameKey>, AllocError>
    requires { AreRising loaded.now }
    ensures { IfOk result (λ key. option_map name_numbers key ≡ name_key loaded.now (rows.Mount row.now)) }
{
    if row.left {
        return Ok(None);
    }
    Ok(Some(NameKey::Child {
        folder: loaded.root_of(row.user),
        name: row.name.clone()?,
    }))
}
