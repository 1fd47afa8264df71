//! Mounts that are ensured for several users, or of several nodes.

ghost use Rattle.std.specs.Prelude.{◌≡◌, ◌++◌, ◌+◌, ◌≤◌, ◌==◌, ◌∷◌, [], All, IfOk, IsSome, OnOk, filter, length, map};
ghost use Rattle.std.specs.List.Sorted.{IsStrictlyIncreasing};
ghost use Rattle.nf_access.specs.Mounts.{ensured, ensured_all, with_mount};
ghost use Rattle.nf_base.specs.declared.limits.TheConstants.{MAX_MOUNTS, MAX_SHARES};
ghost use Rattle.nf_defs.specs.Prelude.{node_row};
ghost use Rattle.nf_mounts.specs.Kept.{one_or_none};

use crate::mounts::Mounts;
use nf_base::{MountRow, NodeId, UserId};
use nf_people::People;
use nf_tree::Tree;
use std::alloc::{AllocError, Global};

impl Mounts {
    /// The rows that give several users, by rising number, mounts of a node, each under a free name, where they have none. No row
    /// bears on the names of another user's mounts.
    pub fn ensured_for(
        &self,
        alloc: Global,
        people: &People,
        tree: &Tree,
        node: NodeId,
        users: &[UserId],
    ) -> Result<Vec<MountRow>, AllocError>
        requires node { IsSome (node_row tree.now.rows node) }
        requires few { length self.now.rows ≤ MAX_MOUNTS }
        requires rising { IsStrictlyIncreasing users.now }
        ensures { IfOk result (λ rows. rows.items ≡ ensured_all people.now.users tree.now.rows (map (λ user. (user, node)) users.now) self.now.rows) }
    {
        // The rows are by rising user and node.
        let _ = self.rows();
        let mut rows = Vec::new(alloc);
        for user in users {
            self.push_ensured(alloc, people, tree, *user, node, &mut rows)?;
        }
        Ok(rows)
    }

    /// The rows that give a user mounts of several nodes, one after the other, each under a name that is free beside the others too.
    pub fn ensured_of(
        &self,
        alloc: Global,
        people: &People,
        tree: &Tree,
        user: UserId,
        nodes: &[NodeId],
    ) -> Result<Vec<MountRow>, AllocError>
        requires nodes { All (λ node. IsSome (node_row tree.now.rows node)) nodes.now }
        requires few { length self.now.rows ≤ MAX_MOUNTS }
        requires few_nodes { length nodes.now ≤ MAX_SHARES }
        ensures { IfOk result (λ rows. rows.items ≡ ensured_all people.now.users tree.now.rows (map (λ node. (user, node)) nodes.now) self.now.rows) }
    {
        // The rows are by rising user and node.
        let _ = self.rows();
        let mut own = self.only_of(alloc, user)?;
        own.ensure_all(alloc, people, tree, user, nodes)
    }

    /// Puts the row that gives a user a mount of a node at the end, where it has none.
    fn push_ensured(
        &self,
        alloc: Global,
        people: &People,
        tree: &Tree,
        user: UserId,
        node: NodeId,
        rows: &mut Vec<MountRow>,
    ) -> Result<(), AllocError>
        requires node { IsSome (node_row tree.now.rows node) }
        requires few { length self.now.rows ≤ MAX_MOUNTS + MAX_SHARES }
        ensures { OnOk result (rows.new.items ≡ rows.old.items ++ one_or_none (ensured people.now.users tree.now.rows self.now.rows user node)) }
    {
        if let Some(row) = self.ensured(alloc, people, tree, user, node)? {
            rows.push(row)?;
        }
        Ok(())
    }

    /// The mounts of a user alone.
    fn only_of(&self, alloc: Global, user: UserId) -> Result<Mounts, AllocError>
        ensures { IfOk result (λ own. own.rows ≡ filter (λ row. row.user == user) self.now.rows) }
    {
        let _ = self.rows();
        Mounts::load(alloc, copies(alloc, self.of_user(user))?)
    }

    /// Puts the rows that give a user mounts of several nodes, and answers them.
    fn ensure_all(
        &mut self,
        alloc: Global,
        people: &People,
        tree: &Tree,
        user: UserId,
        nodes: &[NodeId],
    ) -> Result<Vec<MountRow>, AllocError>
        requires nodes { All (λ node. IsSome (node_row tree.now.rows node)) nodes.now }
        requires few { length self.old.rows + length nodes.now ≤ MAX_MOUNTS + MAX_SHARES }
        ensures { IfOk result (λ rows. rows.items ≡ ensured_all people.now.users tree.now.rows (map (λ node. (user, node)) nodes.now) self.old.rows) }
    {
        let mut rows = Vec::new(alloc);
        for node in nodes {
            self.ensure(alloc, people, tree, user, *node, &mut rows)?;
        }
        Ok(rows)
    }

    /// Puts the row that gives a user a mount of a node, where it has none, and puts it at the end of the others.
    fn ensure(
        &mut self,
        alloc: Global,
        people: &People,
        tree: &Tree,
        user: UserId,
        node: NodeId,
        rows: &mut Vec<MountRow>,
    ) -> Result<(), AllocError>
        requires node { IsSome (node_row tree.now.rows node) }
        requires few { length self.old.rows ≤ MAX_MOUNTS + MAX_SHARES }
        ensures rows { OnOk result (rows.new.items ≡ rows.old.items ++ one_or_none (ensured people.now.users tree.now.rows self.old.rows user node)) }
        ensures mounts { OnOk result (self.new.rows ≡ with_mount self.old.rows (ensured people.now.users tree.now.rows self.old.rows user node)) }
        ensures count { OnOk result (length self.new.rows ≤ length self.old.rows + 1) }
    {
        if let Some(row) = self.ensured(alloc, people, tree, user, node)? {
            self.reserve(1)?;
            self.put(copy(&row)?);
            rows.push(row)?;
        }
        Ok(())
    }
}

/// Equal rows.
fn copies(alloc: Global, rows: &[MountRow]) -> Result<Vec<MountRow>, AllocError>
    ensures { IfOk result (λ copies. copies.items ≡ rows.now) }
{
    let mut copies = Vec::new(alloc);
    for row in rows {
        copies.push(copy(row)?)?;
    }
    Ok(copies)
}

/// An equal row.
fn copy(row: &MountRow) -> Result<MountRow, AllocError>
    ensures { IfOk result (λ copy. copy ≡ row.now) }
{
    row.clone()
}
