//! The mounts of the site.

ghost use Rattle.std.specs.Prelude.{◌≡◌, ◌==◌, ◌+◌, ◌≤◌, ◌<◌, true, false, not, None, Some, [], length, nat_le, filter, find, bytes_eq, option_copied, option_map, is_some, IfOk, IsOk, IsSome, OnOk};
ghost use Rattle.std.specs.Option.{option_map_or};
ghost use Rattle.nf_access.specs.Mounts.{ensured, free_name_of, is_mounted, mount_at, mount_row, names_in_root, root_folder};
ghost use Rattle.nf_base.specs.FreeNames.{is_taken};
ghost use Rattle.nf_base.specs.declared.limits.TheConstants.{MAX_MOUNTS, MAX_SHARES};
ghost use Rattle.nf_defs.specs.Prelude.{IsRising, child_of, mount_key, node_row, put};
ghost use Rattle.nf_mounts.specs.Kept.{Renames, is_named, left_row, names_beside};

use crate::faults::RenameFault;
use crate::names::{MountName, NamedMount, first_named, name_index, renew};
use nf_base::{Digest, MAX_MOUNTS, MountRow, Name, NodeId, UserId, numbered_name};
use nf_people::People;
use nf_table::{MountKey, Table};
use nf_tree::Tree;
use std::alloc::{AllocError, Global};
use std::marker::Model;

/// The mounts, by rising user and node, and those that weren't left by their names too.
#[derive(Drop)]
pub struct Mounts {
    rows: Table<MountRow>,
    by_name: Table<NamedMount>,
}

impl Model for Mounts {
    ghost use Rattle.std.specs.Prelude.{min};
    ghost use Rattle.nf_mounts.specs.Kept.{AreNamed, KeptMounts};

    ghost Value = { KeptMounts };

    ghost view = { λ mounts. record { rows = mounts.rows.rows; room = min mounts.rows.room mounts.by_name.room } };

    ghost invariant = { λ mounts. AreNamed mounts.by_name mounts.rows.rows };
}

impl Mounts {
    pub fn new(alloc: Global) -> Self
        ensures { result.rows ≡ [] }
    {
        Mounts {
            rows: Table::new(alloc),
            by_name: Table::new(alloc),
        }
    }

    /// The mounts of these rows.
    pub fn load(alloc: Global, rows: Vec<MountRow>) -> Result<Self, AllocError>
        requires { IsRising mount_key rows.items }
        ensures { IfOk result (λ mounts. mounts.rows ≡ rows.items) }
    {
        let by_name = name_index(alloc, &rows)?;
        Ok(Mounts {
            rows: Table::of(rows),
            by_name,
        })
    }

    /// All rows, by rising user and node.
    pub fn rows(&self) -> &[MountRow]
        ensures rows { result.now ≡ self.now.rows }
        ensures rising { IsRising mount_key self.now.rows }
    {
        self.rows.rows()
    }

    /// How many rows there are, with those of mounts that were left.
    pub fn count(&self) -> usize
        ensures { result ≡ length self.now.rows }
    {
        self.rows.count()
    }

    /// Whether so many rows more may be.
    pub fn has_room(&self, count: usize) -> bool
        ensures { result ≡ nat_le (length self.now.rows + count) MAX_MOUNTS }
    {
        let many = self.count();
        many <= MAX_MOUNTS && count <= MAX_MOUNTS - many
    }

    /// The row of the user's mount of the node, also where it was left.
    pub fn row(&self, user: UserId, node: NodeId) -> Option<&MountRow>
        ensures { option_copied result ≡ mount_row self.now.rows user node }
    {
        self.rows.find(&MountKey { user, node })
    }

    /// The user's mounts, with those that were left.
    pub fn of_user(&self, user: UserId) -> &[MountRow]
        ensures { result.now ≡ filter (λ row. row.user == user) self.now.rows }
    {
        self.rows.front(&user)
    }

    /// Whether the user has a mount of the node that wasn't left.
    pub fn is_mounted(&self, user: UserId, node: NodeId) -> bool
        ensures { result ≡ is_mounted self.now.rows user node }
    {
        match self.row(user, node) {
            Some(row) => !row.left,
            None => false,
        }
    }

    /// The node of the user's mount of that name.
    pub fn at(&self, user: UserId, name: &Name) -> Option<NodeId>
        ensures { result ≡ mount_at self.now.rows user name.now }
    {
        self.at_but(user, name, None)
    }

    /// Makes room for so many rows more.
    pub fn reserve(&mut self, count: usize) -> Result<(), AllocError>
        ensures room { OnOk result (length self.new.rows + count ≤ self.new.room) }
        ensures rows { self.new.rows ≡ self.old.rows }
        ensures kept { self.old.room ≤ self.new.room }
    {
        self.rows.reserve(count)?;
        // Each row may come to have an entry.
        let fewer = self.rows.count() - self.by_name.count();
        let more = fewer.checked_add(count).ok_or(AllocError)?;
        self.by_name.reserve(more)
    }

    /// Tells callers that the rows fit; it does nothing.
    pub fn keeps(&self)
        ensures { length self.now.rows ≤ self.now.room }
    {
        let _ = self.rows.count();
    }

    /// Puts a row over that of the same mount, or as a new one. It takes no memory.
    pub fn put(&mut self, row: MountRow)
        requires { mount_row self.old.rows row.user row.node ≡ None → length self.old.rows < self.old.room }
        ensures rows { self.new.rows ≡ put mount_key row self.old.rows }
        ensures room { self.old.room ≤ self.new.room }
        ensures count { length self.new.rows ≤ length self.old.rows + 1 }
    {
        renew(&mut self.by_name, &self.rows, &row);
        self.rows.put(row);
    }

    /// Whether no child and no mount in the user's root has that name.
    pub fn is_name_free(&self, people: &People, tree: &Tree, user: UserId, name: &Name) -> bool
        ensures { result ≡ not (is_taken name.now (names_in_root people.now.users tree.now.rows self.now.rows user)) }
    {
        child_in_root(people, tree, user, name).is_none() && self.at(user, name).is_none()
    }

    /// The row that gives the user a mount of a node, under a free name, where it has none. The one error is that there is no
    /// memory for the name.
    pub fn ensured(
        &self,
        alloc: Global,
        people: &People,
        tree: &Tree,
        user: UserId,
        node: NodeId,
    ) -> Result<Option<MountRow>, AllocError>
        requires node { IsSome (node_row tree.now.rows node) }
        requires few { length self.now.rows ≤ MAX_MOUNTS + MAX_SHARES }
        ensures { IfOk result (λ row. row ≡ ensured people.now.users tree.now.rows self.now.rows user node) }
    {
        if self.is_mounted(user, node) {
            return Ok(None);
        }
        let shared = tree.node(node).unwrap();
        let name = self.free_in_root(alloc, people, tree, user, &shared.name)?;
        Ok(Some(MountRow {
            user,
            node,
            name,
            left: false,
        }))
    }

    /// The row of the user's mount of the node, if there is one, as it is once the mount is left.
    pub fn left(&self, user: UserId, node: NodeId) -> Result<Option<MountRow>, AllocError>
        ensures { IfOk result (λ row. row ≡ option_map left_row (mount_row self.now.rows user node)) }
    {
        match self.row(user, node) {
            Some(row) => Ok(Some(MountRow {
                user: row.user,
                node: row.node,
                name: row.name.copy()?,
                left: true,
            })),
            None => Ok(None),
        }
    }

    /// The row of the user's mount of the node under another name, which no other child and no other mount in its root may have.
    /// Whether the mount is there isn't looked at.
    pub fn renamed(
        &self,
        people: &People,
        tree: &Tree,
        user: UserId,
        node: NodeId,
        name: &Name,
    ) -> Result<MountRow, RenameFault>
        ensures { Renames (record { user = user; node = node; name = name.now; left = false }) (names_beside people.now.users tree.now.rows self.now.rows user node) result }
    {
        if self.is_taken_beside(people, tree, user, node, name) {
            return Err(RenameFault::NameTaken);
        }
        Ok(MountRow {
            user,
            node,
            name: name.copy()?,
            left: false,
        })
    }
}

impl Mounts {
    /// The node of a mount of that name that the user has, but for one.
    fn at_but(&self, user: UserId, name: &Name, but: Option<NodeId>) -> Option<NodeId>
        ensures { result ≡ option_map (λ row. row.node) (find (is_named user name.now but) self.now.rows) }
    {
        let front = MountName {
            user,
            name: Digest::of(name.as_bytes()),
        };
        let entry = first_named(self.by_name.front(&front), &self.rows, name, but)?;
        Some(entry.node)
    }

    /// Whether a child, or a mount of another node, has that name in the user's root.
    fn is_taken_beside(
        &self,
        people: &People,
        tree: &Tree,
        user: UserId,
        node: NodeId,
        name: &Name,
    ) -> bool
        ensures { result ≡ is_taken name.now (names_beside people.now.users tree.now.rows self.now.rows user node) }
    {
        child_in_root(people, tree, user, name).is_some()
            || self.at_but(user, name, Some(node)).is_some()
    }

    /// The free name of a name in the user's root. Each number that is tried gives another name, so that no more are tried than there
    /// are nodes and mounts.
    fn free_in_root(
        &self,
        alloc: Global,
        people: &People,
        tree: &Tree,
        user: UserId,
        name: &Name,
    ) -> Result<Name, AllocError>
        requires { length self.now.rows ≤ MAX_MOUNTS + MAX_SHARES }
        ensures { IfOk result (λ free. free ≡ free_name_of name.now (names_in_root people.now.users tree.now.rows self.now.rows user)) }
    {
        if self.is_name_free(people, tree, user, name) {
            return name.copy();
        }
        let _ = tree.count();
        let mut number = 2;
        loop {
            let free = numbered_name(alloc, name, number)?;
            if self.is_name_free(people, tree, user, &free) {
                return Ok(free);
            }
            number += 1;
        }
    }
}

/// The root of a user.
fn root_of(people: &People, user: UserId) -> NodeId
    ensures { result ≡ root_folder people.now.users user }
{
    match people.row(user) {
        Some(row) => row.root,
        None => NodeId::new(0),
    }
}

/// The child of that name in the user's root.
fn child_in_root(people: &People, tree: &Tree, user: UserId, name: &Name) -> Option<NodeId>
    ensures { result ≡ child_of tree.now.rows (root_folder people.now.users user) name.now }
{
    tree.child(root_of(people, user), name)
}
