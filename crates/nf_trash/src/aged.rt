//! Items by their owners and their age.

ghost use Rattle.std.specs.Prelude.{◌≡◌, ◌==◌, ◌≤◌, ◌∷◌, [], All, drop, not, filter, length, map, take, IfOk, vec_capacity};
ghost use Rattle.std.specs.List.{list_any};
ghost use Rattle.nf_defs.specs.Prelude.{IsRising, item_key};
ghost use Rattle.nf_table.specs.Rows.{AreSorted};
ghost use Rattle.nf_trash.specs.Aged.{IsAged, age_key, aged_of, is_newer};

use nf_base::{ItemRow, Moment, NodeId, UserId};
use nf_defs::{FoundBy, Keyed};
use std::alloc::{AllocError, Global};
use std::cmp::Ordering;

/// Whose an item is, when it came to the trash, and its node.
#[derive(Clone, Copy)]
pub struct Aged {
    pub owner: UserId,
    pub at: Moment,
    pub node: NodeId,
}

impl Keyed for Aged {
    ghost key = { age_key };

    fn compare(&self, other: &Aged) -> Ordering {
        self.owner
            .cmp(&other.owner)
            .then(self.at.cmp(&other.at))
            .then(self.node.cmp(&other.node))
    }
}

/// What is told of an item is all key.
impl FoundBy<Aged> for Aged {
    ghost numbers = { age_key };

    fn compare_to(&self, sought: &Aged) -> Ordering {
        self.compare(sought)
    }
}

pub(crate) fn aged_of(item: &ItemRow) -> Aged
    ensures { result ≡ aged_of item.now }
{
    Aged {
        owner: item.owner,
        at: item.at,
        node: item.node,
    }
}

/// All items, each user's from the oldest on.
pub(crate) fn by_age(alloc: Global, items: &[ItemRow]) -> Result<Vec<Aged>, AllocError>
    requires { IsRising item_key items.now }
    ensures { IfOk result (λ aged. IsAged items.now aged.items) }
{
    let mut aged = all_of(alloc, items)?;
    aged.sort_by(Keyed::compare)?;
    Ok(aged)
}

/// All items, in their order.
fn all_of(alloc: Global, items: &[ItemRow]) -> Result<Vec<Aged>, AllocError>
    ensures { IfOk result (λ aged. aged.items ≡ map aged_of items.now) }
{
    items.iter().map(aged_of).collect(alloc)
}

/// Those of a user, found by two halvings.
pub(crate) fn of_user(aged: &[Aged], user: UserId) -> &[Aged]
    requires { IsRising age_key aged.now }
    ensures { result.now ≡ filter (λ one. one.owner == user) aged.now }
{
    let from = aged.partition_point(|one| one.owner < user);
    let (_, rest) = aged.split_at(from);
    let count = rest.partition_point(|one| one.owner <= user);
    &rest[..count]
}

/// How many of a user's items, from the oldest on, are no newer than that one.
pub(crate) fn count_to(aged: &[Aged], item: &ItemRow) -> usize
    requires rising { IsRising age_key aged.now }
    requires own { All (λ one. one.owner ≡ item.now.owner) aged.now }
    ensures few { result ≤ length aged.now }
    ensures older { take result aged.now ≡ filter (λ one. not (is_newer one item.now)) aged.now }
    ensures newer { drop result aged.now ≡ filter (λ one. is_newer one item.now) aged.now }
{
    aged.partition_point(|one| !is_newer(one, item))
}

/// Whether it came to the trash after that item.
fn is_newer(one: &Aged, item: &ItemRow) -> bool
    ensures { result ≡ is_newer one.now item.now }
{
    item.at < one.at || item.at == one.at && item.node < one.node
}

/// Leaves out those of some nodes, which are by rising number.
pub(crate) fn leave_out(aged: &mut Vec<Aged>, nodes: &[NodeId])
    requires { AreSorted (λ node. node ∷ []) nodes.now }
    ensures items { aged.new.items ≡ filter (λ one. not (list_any (λ node. node == one.node) nodes.now)) aged.old.items }
    ensures room { vec_capacity aged.new ≡ vec_capacity aged.old }
{
    aged.retain(|one| !is_among(nodes, one.node));
}

/// Whether a node is among some, which are by rising number, found by halving.
fn is_among(nodes: &[NodeId], sought: NodeId) -> bool
    requires { AreSorted (λ node. node ∷ []) nodes.now }
    ensures { result ≡ list_any (λ node. node == sought) nodes.now }
{
    nodes.binary_search(&sought).is_ok()
}
