//! Which versions of an owner go, so that they stay within half of what the charge leaves of the quota.

ghost use Rattle.std.specs.Prelude.{◌≡◌, ◌++◌, [], IfOk, OnOk, map};
ghost use Rattle.std.specs.List.{flat_map, list_any};
ghost use Rattle.nf_words.specs.Changes.{charged, purged_by, settled_by, unsettled};
ghost use Rattle.nf_words.specs.Sound.{AreSound};
ghost use Rattle.nf_words.specs.Versions.{beyond_bound, held, held_beside, held_without, is_under_any, is_version};
ghost use Rattle.nf_words.specs.declared.answer.Deed.TheVariants as deeds_of;

use crate::quotas::quota_of;
use nf_base::{Moment, NodeId, UserId, VersionRow};
use nf_retention::{Version, beyond, versions_bound};
use nf_view::{View, owner_of};
use nf_words::Deed;
use std::alloc::{AllocError, Global};
use std::marker::Model;

/// An owner whose files take up so many bytes after a step, and may take up so many.
#[derive(Drop)]
pub(crate) struct Charged {
    pub owner: UserId,
    pub charge: u128,
    pub quota: u64,
}

impl Model for Charged {
    ghost use Rattle.nf_words.specs.Changes.{Charged};

    ghost Value = { Charged };

    ghost view = { λ to. record { owner = to.owner; charge = to.charge; quota = to.quota } };
}

/// An owner with so many bytes in the place of so many.
pub(crate) fn owner_charged(view: &View<'_>, owner: UserId, old: u64, new: u64) -> Charged
    requires { AreSound view.now.tables }
    ensures { result ≡ charged view.now.tables owner old new }
{
    let left = view.charge(owner).saturating_sub(old);
    Charged {
        owner,
        charge: u128::from(left) + u128::from(new),
        quota: quota_of(view, owner),
    }
}

/// Of the versions of an owner those that go.
pub(crate) fn beyond_bound(
    alloc: Global,
    charged: &Charged,
    held: Vec<Version>,
) -> Result<Vec<Version>, AllocError>
    ensures { IfOk result (λ gone. gone.items ≡ beyond_bound charged.now.quota charged.now.charge held.items) }
{
    // What no u64 holds is beyond every quota.
    let charge = u64::try_from(charged.charge).unwrap_or(u64::MAX);
    beyond(alloc, held, versions_bound(charged.quota, charge))
}

/// What the bound sees of a version.
pub(crate) fn version(row: &VersionRow) -> Version
    ensures { result ≡ held row.now }
{
    Version {
        node: row.node,
        at: row.at,
        size: row.content.size(),
    }
}

/// The versions of an owner's files but those of one node.
pub(crate) fn held_beside(
    alloc: Global,
    view: &View<'_>,
    owner: UserId,
    node: NodeId,
) -> Result<Vec<Version>, AllocError>
    ensures { IfOk result (λ versions. versions.items ≡ held_beside view.now.tables owner node) }
{
    view.versions()
        .rows()
        .iter()
        .filter(|row| row.node != node)
        .filter(|row| owner_of(view.tree(), row.node) == owner)
        .map(|row| version(row))
        .collect(alloc)
}

/// The versions of an owner's files but those of what goes for good.
fn held_without(
    alloc: Global,
    view: &View<'_>,
    owner: UserId,
    gone: &[NodeId],
) -> Result<Vec<Version>, AllocError>
    ensures { IfOk result (λ versions. versions.items ≡ held_without view.now.tables owner gone.now) }
{
    view.versions()
        .rows()
        .iter()
        .filter(|row| owner_of(view.tree(), row.node) == owner)
        .filter(|row| !is_gone(view, gone, row.node))
        .map(|row| version(row))
        .collect(alloc)
}

/// Whether a node is under one of those that go for good.
fn is_gone(view: &View<'_>, gone: &[NodeId], node: NodeId) -> bool
    ensures { result ≡ is_under_any view.now.tables.nodes gone.now node }
{
    gone.iter().any(|top| view.tree().under(node, *top))
}

/// The nodes that go for good by some deeds.
fn purged(alloc: Global, deeds: &[Deed]) -> Result<Vec<NodeId>, AllocError>
    ensures { IfOk result (λ nodes. nodes.items ≡ flat_map purged_by deeds.now) }
{
    let mut nodes = Vec::new(alloc);
    for deed in deeds {
        if let Deed::Purge(node) = deed {
            nodes.push(*node)?;
        }
    }
    Ok(nodes)
}

/// Puts the deeds by which an owner's versions go at the end, where some do once the others are done.
pub(crate) fn settle(
    alloc: Global,
    view: &View<'_>,
    charged: &Charged,
    deeds: &mut Vec<Deed>,
) -> Result<(), AllocError>
    ensures { OnOk result (deeds.new.items ≡ settled_by view.now.tables charged.now deeds.old.items) }
{
    let gone = purged(alloc, deeds)?;
    let held = held_without(alloc, view, charged.owner, &gone)?;
    push_forgets(deeds, &beyond_bound(alloc, charged, held)?)
}

/// Puts the deeds by which some versions go at the end.
fn push_forgets(deeds: &mut Vec<Deed>, versions: &[Version]) -> Result<(), AllocError>
    ensures { OnOk result (deeds.new.items ≡ deeds.old.items ++ map (λ version. deeds_of.Forget version.node version.at) versions.now) }
{
    for version in versions {
        deeds.push(Deed::Forget {
            node: version.node,
            at: version.at,
        })?;
    }
    Ok(())
}

/// Of the versions of an owner those that go, where no file goes.
pub(crate) fn settled(
    alloc: Global,
    view: &View<'_>,
    charged: &Charged,
) -> Result<Vec<Version>, AllocError>
    ensures { IfOk result (λ versions. versions.items ≡ unsettled view.now.tables charged.now []) }
{
    let held = held_without(alloc, view, charged.owner, &[])?;
    beyond_bound(alloc, charged, held)
}

/// Whether one of some versions is of that node and moment.
pub(crate) fn has_version(versions: &[Version], node: NodeId, at: Moment) -> bool
    ensures { result ≡ list_any (is_version node at) versions.now }
{
    versions.iter().any(|version| is_version(version, node, at))
}

/// Whether the version is of that node and moment.
pub(crate) fn is_version(version: &Version, node: NodeId, at: Moment) -> bool
    ensures { result ≡ is_version node at version.now }
{
    version.node == node && version.at == at
}
