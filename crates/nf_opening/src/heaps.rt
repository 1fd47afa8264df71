//! What each user's trash has, in bytes.

ghost use Rattle.std.specs.Prelude.{◌≡◌, ◌==◌, ◌+◌, ◌<◌, ◌^◌, ℕ, IfOk, OnOk, if◌then◌else◌, min};
ghost use Rattle.nf_defs.specs.Prelude.{AreRising};
ghost use Rattle.nf_rules.specs.Rules.{trash_bytes};
ghost use Rattle.nf_words.specs.Prelude.{last_number};
ghost use Rattle.nf_opening.specs.Heaps.{AreTops, top_of, topped_bytes};
ghost use Rattle.nf_opening.specs.Totals.{total_of};

use crate::Loaded;
use crate::sharing::parent_of;
use crate::totals::add;
use nf_base::{MAX_DEPTH, NodeId};
use std::alloc::{AllocError, Global};
use std::collections::BTreeMap;

/// The bytes of each owner's items, each with all under it: in one pass over the nodes, and one over the items.
pub(crate) fn heaps(alloc: Global, loaded: &Loaded) -> Result<BTreeMap<u32, u128>, AllocError>
    requires rising { AreRising loaded.now }
    requires tops { AreTops loaded.now }
    ensures { IfOk result (λ totals. (owner : ℕ) → total_of totals owner ≡ trash_bytes loaded.now owner) }
{
    let tops = topped(alloc, loaded)?;
    let mut totals = BTreeMap::new(alloc);
    for row in &loaded.items {
        add(&mut totals, row.owner, capped(sum_at(&tops, row.node)))?;
    }
    Ok(totals)
}

/// The bytes of all that leads to each top.
fn topped(alloc: Global, loaded: &Loaded) -> Result<BTreeMap<u64, u128>, AllocError>
    requires { AreRising loaded.now }
    ensures { IfOk result (λ tops. (top : ℕ) → total_of tops top ≡ topped_bytes loaded.now.nodes top) }
{
    let mut totals = BTreeMap::new(alloc);
    for row in &loaded.nodes {
        add_at(&mut totals, top_of(loaded, row.id), row.content.size())?;
    }
    Ok(totals)
}

/// The node that a node leads to, at most `MAX_DEPTH` folders up.
fn top_of(loaded: &Loaded, node: NodeId) -> NodeId
    requires { AreRising loaded.now }
    ensures { result ≡ top_of loaded.now.nodes node }
{
    let mut at = node;
    for step in 0..MAX_DEPTH {
        let _ = step;
        match parent_of(loaded, at) {
            Some(parent) => at = parent,
            None => return at,
        }
    }
    at
}

/// A sum as far as it can be told.
fn capped(sum: u128) -> u64
    ensures { result ≡ min sum last_number }
{
    match u64::try_from(sum) {
        Ok(sum) => sum,
        Err(_) => u64::MAX,
    }
}

/// What leads to a node.
fn sum_at(totals: &BTreeMap<u64, u128>, node: NodeId) -> u128
    ensures { result ≡ total_of totals.now node }
{
    match totals.get(&node.number()) {
        Some(sum) => *sum,
        None => 0,
    }
}

/// So many more lead to a node.
fn add_at(totals: &mut BTreeMap<u64, u128>, node: NodeId, more: u64) -> Result<(), AllocError>
    requires { total_of totals.old node + more < 2 ^ 128 }
    ensures { OnOk result ((other : ℕ) → total_of totals.new other ≡ (if node == other then total_of totals.old node + more else total_of totals.old other)) }
{
    let sum = sum_at(totals, node) + u128::from(more);
    totals.insert(node.number(), sum)?;
    Ok(())
}
