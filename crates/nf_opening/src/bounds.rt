//! The rule that the versions of a user's files are within half of what the charge leaves of the quota, and the trash within half of it.

ghost use Rattle.std.specs.Prelude.{◌≡◌, ◌==◌, ◌<◌, ℕ, IfOk};
ghost use Rattle.std.specs.List.{list_any};
ghost use Rattle.std.specs.BTreeSet.{contains};
ghost use Rattle.std.specs.Ordering.{nat_cmp};
ghost use Rattle.nf_defs.specs.Prelude.{AreRising, is_present, owner_of};
ghost use Rattle.nf_words.specs.Charges.{charge_of, quota_of};
ghost use Rattle.nf_rules.specs.Rules.{held_bytes, is_heaped, is_unsettled};
ghost use Rattle.nf_opening.specs.Bounds.{AreBounds};
ghost use Rattle.nf_opening.specs.Heaps.{AreTops};
ghost use Rattle.nf_opening.specs.Totals.{total_of};

use crate::Loaded;
use crate::heaps::heaps;
use crate::sharing::parent_of;
use crate::totals::{add, total};
use nf_base::{ItemRow, MAX_DEPTH, NodeId, UserId, UserRow, VersionRow};
use std::alloc::{AllocError, Global};
use std::collections::{BTreeMap, BTreeSet};

/// What the bounds of versions and of trashes are told by, in bytes.
#[derive(Drop)]
pub(crate) struct Bounds {
    /// What the versions of each owner have.
    held: BTreeMap<u32, u128>,
    /// What each owner who has versions is charged for.
    charges: BTreeMap<u32, u128>,
    /// What the items of each owner have, each with all under it.
    trashes: BTreeMap<u32, u128>,
}

impl Bounds {
    pub(crate) fn of(alloc: Global, loaded: &Loaded) -> Result<Self, AllocError>
        requires rising { AreRising loaded.now }
        requires tops { AreTops loaded.now }
        ensures { IfOk result (AreBounds loaded.now) }
    {
        let held = held_bytes(alloc, loaded)?;
        let charges = charges(alloc, loaded, &held)?;
        let trashes = heaps(alloc, loaded)?;
        Ok(Bounds {
            held,
            charges,
            trashes,
        })
    }

    /// Whether the version is one of more bytes than its owner's may have.
    pub(crate) fn are_passed(&self, loaded: &Loaded, row: &VersionRow) -> bool
        requires rising { AreRising loaded.now }
        requires bounds { AreBounds loaded.now self.now }
        ensures { result ≡ is_unsettled loaded.now row.now }
    {
        let owner = owner_of(loaded, row.node);
        let quota = u128::from(quota_of(loaded, owner));
        total(&self.held, owner) > quota.saturating_sub(total(&self.charges, owner)) / 2
    }

    /// Whether the item is one of more bytes than its owner's trash may have.
    pub(crate) fn are_heaped(&self, loaded: &Loaded, row: &ItemRow) -> bool
        requires rising { AreRising loaded.now }
        requires bounds { AreBounds loaded.now self.now }
        ensures { result ≡ is_heaped loaded.now row.now.owner }
    {
        total(&self.trashes, row.owner) > u128::from(quota_of(loaded, row.owner) / 2)
    }
}

/// The bytes of the versions of each owner's files, in the trash too.
fn held_bytes(alloc: Global, loaded: &Loaded) -> Result<BTreeMap<u32, u128>, AllocError>
    requires { AreRising loaded.now }
    ensures { IfOk result (λ totals. (owner : ℕ) → total_of totals owner ≡ held_bytes loaded.now owner) }
{
    let mut totals = BTreeMap::new(alloc);
    for row in &loaded.versions {
        add(&mut totals, owner_of(loaded, row.node), row.content.size())?;
    }
    Ok(totals)
}

/// What each owner is charged for who has versions. Only their files are looked up.
fn charges(
    alloc: Global,
    loaded: &Loaded,
    held: &BTreeMap<u32, u128>,
) -> Result<BTreeMap<u32, u128>, AllocError>
    requires { AreRising loaded.now }
    ensures { IfOk result (λ totals. (owner : ℕ) → 0 < total_of held.now owner → total_of totals owner ≡ charge_of loaded.now owner) }
{
    let roots = roots(alloc, &loaded.users)?;
    let mut totals = BTreeMap::new(alloc);
    for row in &loaded.nodes {
        if total(held, row.owner) > 0 && is_present(loaded, &roots, row.id) {
            add(&mut totals, row.owner, row.content.size())?;
        }
    }
    Ok(totals)
}

/// The owner of a node; 0 where there is no such node.
fn owner_of(loaded: &Loaded, node: NodeId) -> UserId
    requires { AreRising loaded.now }
    ensures { result ≡ owner_of loaded.now.nodes node }
{
    match loaded.node(node) {
        Some(row) => row.owner,
        None => UserId::new(0),
    }
}

/// The quota of a user; 0 where there is no such user.
fn quota_of(loaded: &Loaded, user: UserId) -> u64
    requires { AreRising loaded.now }
    ensures { result ≡ quota_of loaded.now user }
{
    match loaded.user(user) {
        Some(row) => row.quota,
        None => 0,
    }
}

/// The roots of users.
fn roots(alloc: Global, users: &[UserRow]) -> Result<BTreeSet<u64>, AllocError>
    ensures { IfOk result (λ roots. (node : ℕ) → contains nat_cmp roots node ≡ list_any (λ user. node == user.root) users.now) }
{
    let mut roots = BTreeSet::new(alloc);
    for user in users {
        roots.insert(user.root.number())?;
    }
    Ok(roots)
}

/// Whether the node is one of the roots, or in a folder under one.
fn is_present(loaded: &Loaded, roots: &BTreeSet<u64>, node: NodeId) -> bool
    requires rising { AreRising loaded.now }
    requires roots { (root : ℕ) → contains nat_cmp roots.now root ≡ list_any (λ user. root == user.root) loaded.now.users }
    ensures { result ≡ is_present loaded.now.users loaded.now.nodes node }
{
    let mut at = node;
    for step in 0..MAX_DEPTH {
        let _ = step;
        if roots.contains(&at.number()) {
            return true;
        }
        match parent_of(loaded, at) {
            Some(parent) => at = parent,
            None => return false,
        }
    }
    roots.contains(&at.number())
}
