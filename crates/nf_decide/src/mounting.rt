//! What becomes of a mount whose own path is that of what wouldn't stay.

ghost use Rattle.std.specs.Prelude.{◌≡◌, ◌≢◌, [], Some, None, option_and_then, option_map, IfOk, if◌then◌else◌};
ghost use Rattle.nf_access.specs.Mounts.{mount_row};
ghost use Rattle.nf_words.specs.Prelude.{last_name, left_row, mount_left, mount_renamed, named_row, with_mount_row};
ghost use Rattle.nf_decide.specs.Deciding.{asking_of};

use crate::deciding::Call;
use nf_base::{Change, Changes, MountRow, Name, NodeId, Row, UserId};
use nf_deeds::last_name;
use nf_reach::{Asker, Way};
use nf_view::View;
use nf_words::{Allowed, Report, Spot};
use std::alloc::{AllocError, Global};

/// The way of a path, where it is that of a mount itself.
pub(crate) fn mount_itself(way: &Option<Way>) -> Option<Way>
    ensures { result ≡ option_and_then (λ way. if way.itself then Some way else None) way.now }
{
    match way {
        Some(way) if way.itself => Some(*way),
        Some(_) | None => None,
    }
}

impl<'a> Call<'a> {
    /// DELETE of the path of a mount itself leaves the mount.
    #[tactic(auto, using(crate::proofs::Askers::user_asks))]
    pub(crate) fn mount_left(
        &self,
        alloc: Global,
        asker: &Asker<'_>,
        way: &Way,
    ) -> Result<Allowed, AllocError>
        requires { asker.now ≡ asking_of self.now }
        ensures { IfOk result (λ allowed. allowed ≡ mount_left self.entry.now way.now) }
    {
        let row = left(&self.view, asker.user(), way.mount)?;
        with_mount_row(alloc, row, Report::Done)
    }

    /// MOVE of it gives the mount another name.
    #[tactic(auto, using(crate::proofs::Askers::user_asks))]
    pub(crate) fn mount_renamed(
        &self,
        alloc: Global,
        asker: &Asker<'_>,
        way: &Way,
        spot: &Spot,
    ) -> Result<Allowed, AllocError>
        requires asker { asker.now ≡ asking_of self.now }
        requires named { spot.now.path ≢ [] }
        ensures { IfOk result (λ allowed. allowed ≡ mount_renamed self.entry.now way.now (last_name spot.now)) }
    {
        let row = named(&self.view, asker.user(), way.mount, last_name(spot)?)?;
        with_mount_row(alloc, row, Report::Made)
    }
}

/// The row of a mount is another, if there is one.
fn with_mount_row(
    alloc: Global,
    row: Option<MountRow>,
    report: Report,
) -> Result<Allowed, AllocError>
    ensures { IfOk result (λ allowed. allowed ≡ with_mount_row row report) }
{
    let mut changes = Changes::new(alloc);
    if let Some(row) = row {
        changes.push(Change::Put(Row::Mount(row)))?;
    }
    Ok(Allowed::Change {
        changes,
        blob: None,
        report,
    })
}

/// The row of the user's mount of a node, if there is one, once it is left.
fn left(view: &View<'_>, user: UserId, node: Option<NodeId>) -> Result<Option<MountRow>, AllocError>
    ensures { IfOk result (λ row. row ≡ option_map left_row (option_and_then (mount_row view.now.tables.mounts user) node)) }
{
    match node {
        Some(node) => view.mounts().left(user, node),
        None => Ok(None),
    }
}

/// The row of the user's mount of a node, if there is one, under another name.
fn named(
    view: &View<'_>,
    user: UserId,
    node: Option<NodeId>,
    name: Name,
) -> Result<Option<MountRow>, AllocError>
    ensures { IfOk result (λ row. row ≡ option_map (named_row name) (option_and_then (mount_row view.now.tables.mounts user) node)) }
{
    let Some(node) = node else {
        return Ok(None);
    };
    match view.mounts().row(user, node) {
        Some(row) => Ok(Some(MountRow { name, ..*row })),
        None => Ok(None),
    }
}
