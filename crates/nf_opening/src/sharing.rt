//! The rule that shares have chains and are of their owners' nodes, and mounts of others'.

ghost use Rattle.std.specs.Prelude.{◌≡◌, ◌==◌, nat_lt, not, is_some};
ghost use Rattle.std.specs.Option.{option_map_or};
ghost use Rattle.nf_access.specs.Shares.{chain_within};
ghost use Rattle.nf_base.specs.declared.limits.TheConstants.{MAX_CHAIN};
ghost use Rattle.nf_base.specs.declared.rows.Row.TheVariants as rows;
ghost use Rattle.nf_defs.specs.Prelude.{AreRising, is_under, parent_of, tables_of};
ghost use Rattle.nf_rules.specs.Rules.{first_index, is_in_root, is_linked, is_of_node, is_share_kept, is_shared_well};

use crate::Loaded;
use crate::first::first;
use nf_access::perms_of_share;
use nf_base::{MAX_CHAIN, MAX_DEPTH, MountRow, NodeId, NodeRow, Place, Row, ShareId, ShareRow};

/// The first share that has no chain or isn't of its owner's node, or mount of its user's own node.
pub(crate) fn first_unkept(loaded: &Loaded, rows: &[Row]) -> Option<usize>
    requires tables { loaded.now ≡ tables_of rows.now }
    requires rising { AreRising loaded.now }
    ensures { result ≡ first_index (λ row. not (is_shared_well (tables_of rows.now) row)) rows.now }
{
    first(rows, |row| !is_shared_well(loaded, row))
}

fn is_shared_well(loaded: &Loaded, row: &Row) -> bool
    requires { AreRising loaded.now }
    ensures { result ≡ is_shared_well loaded.now row.now }
{
    match row {
        Row::Share(row) => is_share_kept(loaded, row),
        Row::Mount(row) => is_of_another(loaded, row),
        _ => true,
    }
}

/// Whether the mount's node isn't its user's own.
fn is_of_another(loaded: &Loaded, row: &MountRow) -> bool
    requires { AreRising loaded.now }
    ensures { result ≡ is_shared_well loaded.now (rows.Mount row.now) }
{
    match loaded.node(row.node) {
        Some(node) => node.owner != row.user,
        None => true,
    }
}

/// Whether the share has a chain, and is of its owner's node as long as that is there.
fn is_share_kept(loaded: &Loaded, row: &ShareRow) -> bool
    requires { AreRising loaded.now }
    ensures { result ≡ is_share_kept loaded.now row.now }
{
    is_linked(loaded, row)
        && match loaded.node(row.node) {
            Some(node) => (row.ended || is_in_root(loaded, node)) && is_of_node(row, node),
            None => row.ended,
        }
}

fn is_linked(loaded: &Loaded, row: &ShareRow) -> bool
    requires { AreRising loaded.now }
    ensures { result ≡ is_linked loaded.now row.now }
{
    comes_after(row) && has_chain(loaded, row.id)
}

/// Whether the share comes after the one that it passes on. One that passes none on was made by the node's owner.
fn comes_after(row: &ShareRow) -> bool
    ensures { result ≡ option_map_or (λ parent. nat_lt parent row.now.id) row.now.parent (row.now.initiator == row.now.owner) }
{
    match row.parent {
        Some(parent) => parent < row.id,
        None => row.initiator == row.owner,
    }
}

/// Whether the share has a chain, of at most `MAX_CHAIN` shares.
fn has_chain(loaded: &Loaded, share: ShareId) -> bool
    requires { AreRising loaded.now }
    ensures { result ≡ is_some (chain_within MAX_CHAIN loaded.now.shares share) }
{
    let mut at = share;
    for step in 0..MAX_CHAIN {
        let _ = step;
        let Some(row) = loaded.share(at) else {
            return false;
        };
        match row.parent {
            Some(parent) => at = parent,
            None => return row.initiator == row.owner,
        }
    }
    false
}

/// Whether the node is its share's owner's and no root, and a share of it may allow what this one does.
fn is_of_node(row: &ShareRow, node: &NodeRow) -> bool
    ensures { result ≡ is_of_node row.now node.now }
{
    node.owner == row.owner
        && node.place != Place::Root
        && perms_of_share(node.kind, &row.kind, row.perms) == row.perms
}

/// Whether the node leads to its owner's root.
pub(crate) fn is_in_root(loaded: &Loaded, node: &NodeRow) -> bool
    requires { AreRising loaded.now }
    ensures { result ≡ is_in_root loaded.now node.now }
{
    is_under(loaded, node.id, loaded.root_of(node.owner))
}

/// Whether the node is the top, or in a folder under it.
fn is_under(loaded: &Loaded, node: NodeId, top: NodeId) -> bool
    requires { AreRising loaded.now }
    ensures { result ≡ is_under loaded.now.nodes node top }
{
    let mut at = node;
    for step in 0..MAX_DEPTH {
        let _ = step;
        if at == top {
            return true;
        }
        match parent_of(loaded, at) {
            Some(parent) => at = parent,
            None => return false,
        }
    }
    at == top
}

/// The folder that a node is in.
pub(crate) fn parent_of(loaded: &Loaded, node: NodeId) -> Option<NodeId>
    requires { AreRising loaded.now }
    ensures { result ≡ parent_of loaded.now.nodes node }
{
    match loaded.node(node)?.place {
        Place::Inside(folder) => Some(folder),
        Place::Root | Place::Trash => None,
    }
}
