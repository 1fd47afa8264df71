//! What a node's row says of it.

ghost use Rattle.std.specs.Prelude.{◌≡◌, IfOk, ◌==◌};
ghost use Rattle.nf_words.specs.Sharing.{kind_of};
ghost use Rattle.nf_defs.specs.Tree.{is_folder, is_file, is_root, owner_of, content_of, parent_of};
ghost use Rattle.nf_words.specs.Prelude.{bytes_of};

use nf_base::{Content, NodeId, NodeKind, Place, UserId};
use nf_tree::Tree;
use std::alloc::{AllocError, Global};

pub fn is_folder(tree: &Tree, node: NodeId) -> bool
    ensures { result ≡ is_folder tree.now.rows node }
{
    match tree.node(node) {
        Some(row) => row.kind == NodeKind::Folder,
        None => false,
    }
}

pub(crate) fn is_file(tree: &Tree, node: NodeId) -> bool
    ensures { result ≡ is_file tree.now.rows node }
{
    match tree.node(node) {
        Some(row) => row.kind == NodeKind::File,
        None => false,
    }
}

/// Of a node that is there.
pub fn kind_of(tree: &Tree, node: NodeId) -> NodeKind
    ensures { result ≡ kind_of tree.now.rows node }
{
    match tree.node(node) {
        Some(row) => row.kind,
        None => NodeKind::File,
    }
}

pub fn is_root(tree: &Tree, node: NodeId) -> bool
    ensures { result ≡ is_root tree.now.rows node }
{
    match tree.node(node) {
        Some(row) => row.place == Place::Root,
        None => false,
    }
}

pub fn owner_of(tree: &Tree, node: NodeId) -> UserId
    ensures { result ≡ owner_of tree.now.rows node }
{
    match tree.node(node) {
        Some(row) => row.owner,
        None => UserId::new(0),
    }
}

pub fn content_of(alloc: Global, tree: &Tree, node: NodeId) -> Result<Content, AllocError>
    ensures { IfOk result (λ content. content ≡ content_of tree.now.rows node) }
{
    match tree.node(node) {
        Some(row) => row.content.clone(),
        None => Ok(Content::empty(alloc)),
    }
}

/// The folder that a node is in.
pub(crate) fn parent_of(tree: &Tree, node: NodeId) -> Option<NodeId>
    ensures { result ≡ parent_of tree.now.rows node }
{
    match tree.node(node)?.place {
        Place::Inside(parent) => Some(parent),
        Place::Root | Place::Trash => None,
    }
}

/// The bytes of a node's own content.
pub fn bytes_of(tree: &Tree, node: NodeId) -> u64
    ensures { result ≡ bytes_of tree.now.rows node }
{
    match tree.node(node) {
        Some(row) => row.content.size(),
        None => 0,
    }
}
