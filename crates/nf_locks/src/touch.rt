//! What a request touches.

ghost use Rattle.std.specs.Prelude.{◌≡◌};
ghost use Rattle.nf_words.specs.Holds.{clashes, covers, is_exclusive, node_of_key, same_key, touch_key, touch_under};
ghost use Rattle.nf_words.specs.declared.answer.LockKey.TheVariants as keys;

use nf_base::NodeId;
use nf_tree::Tree;
use nf_words::{Hold, LockKey, Mode};
use std::marker::Model;

/// What is read, changed or named, and whether alone.
#[derive(Drop)]
pub struct Touch<'a> {
    thing: Thing<'a>,
    mode: Mode,
}

/// What can be touched.
#[derive(Drop)]
enum Thing<'a> {
    /// A node by itself.
    Node(NodeId),
    /// A name in a folder, by its bytes.
    Slot { folder: NodeId, name: &'a [u8] },
    /// A node and all under it, with each name that is free in a folder of these.
    Tree(NodeId),
}

impl<'a> Model for Touch<'a> {
    ghost use Rattle.nf_words.specs.Holds.{Touch};
    ghost use Rattle.nf_locks.specs.Touches.{touch_of};

    ghost Value = { Touch };

    ghost view = { λ touch. touch_of touch.thing touch.mode };
}

impl<'a> Touch<'a> {
    /// A node by itself.
    pub fn node(node: NodeId, mode: Mode) -> Self
        ensures { result ≡ touch_key (keys.Node node) mode }
    {
        Touch {
            thing: Thing::Node(node),
            mode,
        }
    }

    /// A name in a folder, by its bytes.
    pub fn slot(folder: NodeId, name: &'a [u8], mode: Mode) -> Self
        ensures { result ≡ touch_key (keys.Slot folder name.now) mode }
    {
        Touch {
            thing: Thing::Slot { folder, name },
            mode,
        }
    }

    /// A node and all under it.
    pub fn tree(top: NodeId, mode: Mode) -> Self
        ensures { result ≡ touch_under top mode }
    {
        Touch {
            thing: Thing::Tree(top),
            mode,
        }
    }

    /// Whether it is what is held or covers it, and one of the two is alone.
    pub(crate) fn clashes(&self, tree: &Tree, hold: &Hold) -> bool
        ensures { result ≡ clashes tree.now.rows self.now hold.now }
    {
        self.covers(tree, &hold.key) && is_exclusive(self.mode, hold.mode)
    }

    fn covers(&self, tree: &Tree, held: &LockKey) -> bool
        ensures { result ≡ covers tree.now.rows self.now held.now }
    {
        match &self.thing {
            Thing::Node(node) => is_node(held, *node),
            Thing::Slot { folder, name } => is_slot(held, *folder, name),
            Thing::Tree(top) => tree.under(node_of(held), *top),
        }
    }
}

/// Whether a key is that of a node.
fn is_node(key: &LockKey, node: NodeId) -> bool
    ensures { result ≡ same_key (keys.Node node) key.now }
{
    match key {
        LockKey::Node(held) => node == *held,
        LockKey::Slot { .. } => false,
    }
}

/// Whether a key is that of a name in a folder.
fn is_slot(key: &LockKey, folder: NodeId, name: &[u8]) -> bool
    ensures { result ≡ same_key (keys.Slot folder name.now) key.now }
{
    match key {
        LockKey::Node(_) => false,
        LockKey::Slot {
            folder: held,
            name: taken,
        } => folder == *held && name == taken.as_bytes(),
    }
}

/// The node that is stored over, or the folder of the free name.
fn node_of(key: &LockKey) -> NodeId
    ensures { result ≡ node_of_key key.now }
{
    match key {
        LockKey::Node(node) => *node,
        LockKey::Slot { folder, name: _ } => *folder,
    }
}

/// Whether at least one of two is alone.
fn is_exclusive(mode: Mode, held: Mode) -> bool
    ensures { result ≡ is_exclusive mode held }
{
    match (mode, held) {
        (Mode::Shared, Mode::Shared) => false,
        (Mode::Exclusive, _) | (_, Mode::Exclusive) => true,
    }
}
