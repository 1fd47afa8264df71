//! What stays in a user's trash.

ghost use Rattle.std.specs.Prelude.{◌≡◌, ◌+◌, nat_lt, IfOk};
ghost use Rattle.std.specs.Ordering.{nat_cmp, ordering_then};
ghost use Rattle.nf_retention.specs.Trash.{AreGoing, AreSorted, young_sizes};

use crate::{fitting, has_expired};
use nf_base::{Moment, NodeId};
use std::alloc::{AllocError, Global};
use std::cmp::Ordering;

/// An item of the trash: its top, the moment at which it came there, and the bytes of all that is in it.
#[derive(Clone, Copy)]
pub struct Trashed {
    pub node: NodeId,
    pub at: Moment,
    pub size: u64,
}

/// Which of two comes first: the newer one, and of one moment that of the higher number.
fn compare(a: &Trashed, b: &Trashed) -> Ordering
    ensures { result ≡ ordering_then (nat_cmp b.now.at a.now.at) (nat_cmp b.now.node a.now.node) }
{
    b.at.cmp(&a.at).then(b.node.cmp(&a.node))
}

/// The same, the newest first.
pub fn newest_first(mut trashed: Vec<Trashed>) -> Result<Vec<Trashed>, AllocError>
    ensures { IfOk result (λ sorted. AreSorted trashed.items sorted.items) }
{
    trashed.sort_by(compare)?;
    Ok(trashed)
}

/// Those of a user's items, newest first, that go for good.
#[tactic(auto, using(crate::proofs::Gone::fewer_young))]
pub fn going(
    alloc: Global,
    trashed: &[Trashed],
    now: Moment,
    bound: u64,
) -> Result<Vec<NodeId>, AllocError>
    ensures { IfOk result (λ nodes. AreGoing now bound trashed.now nodes.items) }
{
    let sizes = young_sizes(alloc, trashed, now)?;
    let staying = fitting(bound, &sizes);
    trashed[staying..]
        .iter()
        .map(|item| item.node)
        .collect(alloc)
}

/// The sizes of those that haven't been there for 30 days.
fn young_sizes(alloc: Global, trashed: &[Trashed], now: Moment) -> Result<Vec<u64>, AllocError>
    ensures { IfOk result (λ sizes. sizes.items ≡ young_sizes now trashed.now) }
{
    trashed
        .iter()
        .filter(|item| is_young(item, now))
        .map(|item| item.size)
        .collect(alloc)
}

fn is_young(item: &Trashed, now: Moment) -> bool
    ensures { result ≡ nat_lt now (item.now.at + 2592000) }
{
    !has_expired(item.at, now)
}
