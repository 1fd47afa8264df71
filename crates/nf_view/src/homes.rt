//! Where an item of the trash comes back to.

ghost use Rattle.std.specs.Prelude.{◌≡◌, not, IfOk};
ghost use Rattle.nf_access.specs.Mounts.{free_name_of, root_folder};
ghost use Rattle.nf_base.specs.FreeNames.{is_taken};
ghost use Rattle.nf_words.specs.Homes.{home_of, name_back, names_taken_in};
ghost use Rattle.nf_words.specs.Sound.{AreSound};

use crate::nodes::is_folder;
use crate::view::View;
use nf_base::{ItemRow, Name, NodeId, UserId, numbered_name};
use std::alloc::{AllocError, Global};

/// The folder that an item comes back to: the one that it came from, where that is under its owner's root, or else that root.
pub fn home_of(view: &View<'_>, item: &ItemRow) -> NodeId
    ensures { result ≡ home_of view.now.tables item.now }
{
    let tree = view.tree();
    let root = root_folder(view, item.owner);
    if is_folder(tree, item.from) && tree.under(item.from, root) {
        item.from
    } else {
        root
    }
}

/// The name under which it does.
pub fn name_back(alloc: Global, view: &View<'_>, item: &ItemRow) -> Result<Name, AllocError>
    requires { AreSound view.now.tables }
    ensures { IfOk result (λ name. name ≡ name_back view.now.tables item.now) }
{
    free_in(alloc, view, item.owner, home_of(view, item), &item.name)
}

/// The free name of a name in a folder of a user's. Each number that is tried gives another name, so that no more are tried than there
/// are nodes and mounts, and no name that is taken is copied.
fn free_in(
    alloc: Global,
    view: &View<'_>,
    user: UserId,
    folder: NodeId,
    name: &Name,
) -> Result<Name, AllocError>
    requires { AreSound view.now.tables }
    ensures { IfOk result (λ free. free ≡ free_name_of name.now (names_taken_in view.now.tables user folder)) }
{
    if is_free_in(view, user, folder, name) {
        return name.copy();
    }
    let mut number = 2;
    loop {
        let free = numbered_name(alloc, name, number)?;
        if is_free_in(view, user, folder, &free) {
            return Ok(free);
        }
        number += 1;
    }
}

/// Whether no child of a folder of a user's has that name, and where it is the root no mount either.
#[tactic(auto, using(nf_access::proofs::Naming::taken_child))]
fn is_free_in(view: &View<'_>, user: UserId, folder: NodeId, name: &Name) -> bool
    ensures { result ≡ not (is_taken name.now (names_taken_in view.now.tables user folder)) }
{
    if folder == root_folder(view, user) {
        view.mounts()
            .is_name_free(view.people(), view.tree(), user, name)
    } else {
        view.tree().child(folder, name).is_none()
    }
}

/// The root of a user.
fn root_folder(view: &View<'_>, user: UserId) -> NodeId
    ensures { result ≡ root_folder view.now.tables.users user }
{
    match view.people().row(user) {
        Some(row) => row.root,
        None => NodeId::new(0),
    }
}
