//! What stays of an owner's old versions.

ghost use Rattle.std.specs.Prelude.{◌≡◌, IfOk, map};
ghost use Rattle.std.specs.Ordering.{nat_cmp, ordering_then};
ghost use Rattle.nf_retention.specs.Versions.{beyond, latest_first};

use crate::fitting;
use nf_base::{Moment, NodeId};
use std::alloc::{AllocError, Global};
use std::cmp::Ordering;

/// A version of a file: the moment at which it became the file's content, and its bytes.
#[derive(Clone, Copy, PartialEq, Eq)]
pub struct Version {
    pub node: NodeId,
    pub at: Moment,
    pub size: u64,
}

/// Which of two comes first: the newer one, and of one moment that of the higher node.
fn compare(a: &Version, b: &Version) -> Ordering
    ensures { result ≡ ordering_then (nat_cmp b.now.at a.now.at) (nat_cmp b.now.node a.now.node) }
{
    b.at.cmp(&a.at).then(b.node.cmp(&a.node))
}

/// Of an owner's versions those that go: of all, newest first, those behind the longest front within the bound.
pub fn beyond(alloc: Global, versions: Vec<Version>, bound: u64) -> Result<Vec<Version>, AllocError>
    ensures { IfOk result (λ gone. gone.items ≡ beyond bound versions.items) }
{
    let versions = latest_first(versions)?;
    let sizes = sizes_of(alloc, &versions)?;
    let staying = fitting(bound, &sizes);
    versions[staying..].iter().copied().collect(alloc)
}

/// The same versions, the newest first.
fn latest_first(mut versions: Vec<Version>) -> Result<Vec<Version>, AllocError>
    ensures { IfOk result (λ sorted. sorted.items ≡ latest_first versions.items) }
{
    versions.sort_by(compare)?;
    Ok(versions)
}

fn sizes_of(alloc: Global, versions: &[Version]) -> Result<Vec<u64>, AllocError>
    ensures { IfOk result (λ sizes. sizes.items ≡ map (λ version. version.size) versions.now) }
{
    versions.iter().map(|version| version.size).collect(alloc)
}
