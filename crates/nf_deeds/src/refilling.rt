//! How a file's content becomes another: what is replaced becomes a version, and older ones thin out and stay within their bound.

ghost use Rattle.std.specs.Prelude.{◌≡◌, ◌≤◌, ◌++◌, ◌∷◌, ◌&&◌, ◌==◌, [], None, Some, true, false, filter, if◌then◌else◌, map, nat_lt, not, reverse, IfOk, OnOk};
ghost use Rattle.std.specs.List.Sorted.{IsNonDecreasingBy};
ghost use Rattle.std.specs.Option.{option_map_or};
ghost use Rattle.nf_base.specs.declared.changes.Change.TheVariants.{Drop, Put};
ghost use Rattle.nf_base.specs.declared.rows.Row.TheVariants as rows;
ghost use Rattle.nf_defs.specs.Tree.{filled, is_file, is_folder, is_folder_kind, node_row};
ghost use Rattle.nf_retention.specs.Thinning.{AreFalling};
ghost use Rattle.nf_retention.specs.declared.versions.Version.{Version as TheVersion};
ghost use Rattle.nf_words.specs.Changes.{brought_back, charged, is_same, nothing_done, refilled, refills};
ghost use Rattle.nf_words.specs.Sound.{AreSound};
ghost use Rattle.nf_words.specs.Versions.{becomes_version, beyond_bound, content_size, drop_back, drop_gone, drop_version, gone_after, has_already, held, held_beside, is_among, is_at, put_replaced, staying, thinned_out, turned_over, version_for, version_row, with_replaced};
ghost use Rattle.nf_words.specs.declared.answer.Allowed.TheVariants.{Change as ChangeOf};
ghost use Rattle.nf_words.specs.declared.answer.Report.TheVariants.{Done};

use crate::acting::nothing_done;
use crate::settling::{beyond_bound, has_version, held_beside, is_version, owner_charged, version};
use nf_base::{BlobId, Change, Changes, Content, Moment, NodeId, NodeRow, Row, VersionRow};
use nf_retention::{Version, thinned};
use nf_view::{View, dropped, version_row, versions_of};
use nf_words::{Allowed, Report};
use std::alloc::{AllocError, Global};

/// A file whose content becomes another. The version of the moment `back` leaves the list, where it is the one that comes back.
#[derive(Drop)]
struct Refill<'a> {
    view: &'a View<'a>,
    row: &'a NodeRow,
    moment: Moment,
    back: Option<Moment>,
}

/// Another content of a file, whose body is in that blob.
#[tactic(auto, using(crate::proofs::Refills::no_folder))]
pub(crate) fn stored_over(
    alloc: Global,
    view: &View<'_>,
    moment: Moment,
    node: NodeId,
    content: Content,
    blob: Option<BlobId>,
) -> Result<Allowed, AllocError>
    requires sound { AreSound view.now.tables }
    requires late { view.now.tables.meta.last ≤ moment }
    requires file { is_file view.now.tables.nodes node ≡ true }
    ensures { IfOk result (λ allowed. allowed ≡ ChangeOf (option_map_or (refilled view.now.tables moment content) (node_row view.now.tables.nodes node) []) blob Done) }
{
    Ok(Allowed::Change {
        changes: refilled(alloc, view, moment, node, content)?,
        blob,
        report: Report::Done,
    })
}

/// What becomes of the rows where that is another content, if a file is there.
#[tactic(auto, using(crate::proofs::Refills::row_itself))]
pub fn refilled(
    alloc: Global,
    view: &View<'_>,
    moment: Moment,
    node: NodeId,
    content: Content,
) -> Result<Changes, AllocError>
    requires sound { AreSound view.now.tables }
    requires late { view.now.tables.meta.last ≤ moment }
    requires file { is_folder view.now.tables.nodes node ≡ false }
    ensures { IfOk result (λ changes. changes ≡ option_map_or (refilled view.now.tables moment content) (node_row view.now.tables.nodes node) []) }
{
    match view.tree().node(node) {
        Some(row) if !is_same(row, moment, &content) => {
            refills(alloc, view, moment, None, content, row)
        }
        Some(_) | None => Ok(Changes::new(alloc)),
    }
}

/// The version of that moment is the file's content again, if it is there.
#[tactic(auto, using(crate::proofs::Refills::version_file))]
pub fn version_back(
    alloc: Global,
    view: &View<'_>,
    moment: Moment,
    node: NodeId,
    at: Moment,
) -> Result<Allowed, AllocError>
    requires sound { AreSound view.now.tables }
    requires late { view.now.tables.meta.last ≤ moment }
    ensures { IfOk result (λ allowed. allowed ≡ option_map_or (brought_back view.now.tables moment node) (version_row view.now.tables.versions node at) nothing_done) }
{
    match version_row(view, node, at) {
        Some(version) => brought_back(alloc, view, moment, node, version),
        None => Ok(nothing_done(alloc)),
    }
}

#[tactic(auto, using(crate::proofs::Refills::row_itself))]
fn brought_back(
    alloc: Global,
    view: &View<'_>,
    moment: Moment,
    node: NodeId,
    version: &VersionRow,
) -> Result<Allowed, AllocError>
    requires sound { AreSound view.now.tables }
    requires late { view.now.tables.meta.last ≤ moment }
    requires file { is_file view.now.tables.nodes node ≡ true }
    ensures { IfOk result (λ allowed. allowed ≡ brought_back view.now.tables moment node version.now) }
{
    let content = version.content.clone()?;
    let changes = match view.tree().node(node) {
        Some(row) => refills(alloc, view, moment, Some(version.at), content, row)?,
        None => Changes::new(alloc),
    };
    Ok(Allowed::Change {
        changes,
        blob: None,
        report: Report::Done,
    })
}

/// What becomes of the rows where a file has another content, with the version of the moment `back` in its place, where one comes back.
fn refills(
    alloc: Global,
    view: &View<'_>,
    moment: Moment,
    back: Option<Moment>,
    content: Content,
    row: &NodeRow,
) -> Result<Changes, AllocError>
    requires sound { AreSound view.now.tables }
    requires late { view.now.tables.meta.last ≤ moment }
    requires file { is_folder_kind row.now.kind ≡ false }
    requires there { node_row view.now.tables.nodes row.now.id ≡ Some row.now }
    ensures { IfOk result (λ changes. changes ≡ refills view.now.tables moment back content row.now) }
{
    let refill = Refill {
        view,
        row,
        moment,
        back,
    };
    refill.changes(alloc, content)
}

/// Whether that is the moment of the version that comes back.
fn is_at(back: Option<Moment>, at: Moment) -> bool
    ensures { result ≡ is_at back at }
{
    match back {
        Some(back) => back == at,
        None => false,
    }
}

/// Whether what a file has becomes a version when it is replaced, beside those that stay.
pub(crate) fn becomes_version(view: &View<'_>, row: &NodeRow, back: Option<Moment>) -> bool
    ensures { result ≡ becomes_version view.now.tables.versions back row.now }
{
    if row.content.pieces().is_empty() {
        return false;
    }
    is_at(back, row.changed) || version_row(view, row.id, row.changed).is_none()
}

/// Whether a file has a version of the moment of its content, and of that content, already.
fn has_already(view: &View<'_>, row: &NodeRow) -> bool
    ensures { result ≡ has_already view.now.tables.versions row.now }
{
    match version_row(view, row.id, row.changed) {
        Some(version) => version.content == row.content,
        None => false,
    }
}

impl<'a> Refill<'a> {
    /// The rows that change: the file's, and those of versions.
    fn changes(&self, alloc: Global, content: Content) -> Result<Changes, AllocError>
        requires sound { AreSound self.now.view.now.tables }
        requires late { self.now.view.now.tables.meta.last ≤ self.now.moment }
        requires file { is_folder_kind self.now.row.now.kind ≡ false }
        requires there { node_row self.now.view.now.tables.nodes self.now.row.now.id ≡ Some self.now.row.now }
        ensures { IfOk result (λ changes. changes ≡ refills self.now.view.now.tables self.now.moment self.now.back content self.now.row.now) }
    {
        let gone = self.gone(alloc, content.size())?;
        let mut changes = Changes::new(alloc);
        push_filled(&mut changes, self.row, self.moment, content)?;
        self.push_versions(&mut changes, &gone)?;
        Ok(changes)
    }

    /// What becomes of versions, where those go.
    fn push_versions(&self, changes: &mut Changes, gone: &[Version]) -> Result<(), AllocError>
        ensures { OnOk result (changes.new ≡ changes.old ++ turned_over self.now.view.now.tables self.now.back self.now.row.now gone.now) }
    {
        let row = self.row;
        let becomes = becomes_version(self.view, row, self.back);
        let stays = becomes && !has_version(gone, row.id, row.changed);
        self.push_replaced(changes, stays)?;
        self.push_back(changes, stays)?;
        push_gone(changes, row, becomes, gone)
    }

    /// What is replaced is a version then, unless it is there already.
    fn push_replaced(&self, changes: &mut Changes, stays: bool) -> Result<(), AllocError>
        ensures { OnOk result (changes.new ≡ changes.old ++ put_replaced self.now.view.now.tables self.now.row.now stays) }
    {
        if stays && !has_already(self.view, self.row) {
            changes.push(Change::Put(Row::Version(version_for(self.row)?)))?;
        }
        Ok(())
    }

    /// The version that comes back leaves the list, unless what is replaced takes its place there.
    fn push_back(&self, changes: &mut Changes, stays: bool) -> Result<(), AllocError>
        ensures { OnOk result (changes.new ≡ changes.old ++ drop_back self.now.back self.now.row.now stays) }
    {
        let row = self.row;
        let Some(at) = self.back else {
            return Ok(());
        };
        if !(stays && at == row.changed) {
            changes.push(dropped(row.id, at))?;
        }
        Ok(())
    }

    /// The versions that go then: of the file those that thin out, and of its owner those that are beyond the bound.
    fn gone(&self, alloc: Global, size: u64) -> Result<Vec<Version>, AllocError>
        requires sound { AreSound self.now.view.now.tables }
        requires late { self.now.view.now.tables.meta.last ≤ self.now.moment }
        requires there { node_row self.now.view.now.tables.nodes self.now.row.now.id ≡ Some self.now.row.now }
        ensures { IfOk result (λ gone. (let to = charged self.now.view.now.tables self.now.row.now.owner (content_size self.now.row.now.content) size in gone.items ≡ gone_after self.now.view.now.tables self.now.moment self.now.back self.now.row.now to.quota to.charge)) }
    {
        let held = self.held(alloc)?;
        let moments = self.thinned_out(alloc, &held)?;
        let mut gone = those_at(alloc, &held, &moments)?;
        let mut beyond = self.beyond(alloc, held, &moments, size)?;
        gone.append(&mut beyond)?;
        Ok(gone)
    }

    /// Of the owner's versions those that are beyond the bound, once some of the file's are gone.
    fn beyond(
        &self,
        alloc: Global,
        mut versions: Vec<Version>,
        moments: &[Moment],
        size: u64,
    ) -> Result<Vec<Version>, AllocError>
        requires sound { AreSound self.now.view.now.tables }
        requires falling { AreFalling moments.now }
        ensures { IfOk result (λ gone. (let to = charged self.now.view.now.tables self.now.row.now.owner (content_size self.now.row.now.content) size in gone.items ≡ beyond_bound to.quota to.charge (held_beside self.now.view.now.tables self.now.row.now.owner self.now.row.now.id ++ filter (λ version. not (is_among moments.now version.at)) versions.items))) }
    {
        let row = self.row;
        leave_out(&mut versions, moments);
        let mut others = held_beside(alloc, self.view, row.owner, row.id)?;
        others.append(&mut versions)?;
        let charged = owner_charged(self.view, row.owner, row.content.size(), size);
        beyond_bound(alloc, &charged, others)
    }

    /// The versions of the file with what is replaced among them, newest first.
    fn held(&self, alloc: Global) -> Result<Vec<Version>, AllocError>
        requires { AreSound self.now.view.now.tables }
        ensures { IfOk result (λ versions. versions.items ≡ reverse (map held (with_replaced self.now.view.now.tables.versions self.now.back self.now.row.now))) }
    {
        let mut held = self.with_replaced(alloc)?;
        held.reverse();
        Ok(held)
    }

    /// The same, the oldest first.
    fn with_replaced(&self, alloc: Global) -> Result<Vec<Version>, AllocError>
        requires { AreSound self.now.view.now.tables }
        ensures { IfOk result (λ versions. versions.items ≡ map held (with_replaced self.now.view.now.tables.versions self.now.back self.now.row.now)) }
    {
        let mut held = self.staying(alloc)?;
        if !becomes_version(self.view, self.row, self.back) {
            return Ok(held);
        }
        insert(&mut held, replaced(self.row))?;
        Ok(held)
    }

    /// Those of the file that are there and don't come back, the oldest first.
    fn staying(&self, alloc: Global) -> Result<Vec<Version>, AllocError>
        ensures { IfOk result (λ versions. versions.items ≡ map held (staying self.now.view.now.tables.versions self.now.back self.now.row.now.id)) }
    {
        let (row, back) = (self.row, self.back);
        versions_of(self.view, row.id)
            .iter()
            .filter(|one| !is_at(back, one.at))
            .map(|one| version(one))
            .collect(alloc)
    }

    /// The moments of those that thin out, where there is something to replace.
    fn thinned_out(&self, alloc: Global, versions: &[Version]) -> Result<Vec<Moment>, AllocError>
        requires sound { AreSound self.now.view.now.tables }
        requires late { self.now.view.now.tables.meta.last ≤ self.now.moment }
        requires there { node_row self.now.view.now.tables.nodes self.now.row.now.id ≡ Some self.now.row.now }
        requires versions { versions.now ≡ reverse (map held (with_replaced self.now.view.now.tables.versions self.now.back self.now.row.now)) }
        ensures moments { IfOk result (λ moments. moments.items ≡ thinned_out self.now.moment self.now.row.now (with_replaced self.now.view.now.tables.versions self.now.back self.now.row.now)) }
        ensures falling { IfOk result (λ moments. AreFalling moments.items) }
    {
        let row = self.row;
        if row.content.pieces().is_empty() {
            return Ok(Vec::new(alloc));
        }
        let moments = moments_of(alloc, versions)?;
        thinned(alloc, self.moment, &moments)
    }
}

/// Puts a version of a file among its others, the oldest first: behind those of earlier moments.
fn insert(held: &mut Vec<Version>, version: Version) -> Result<(), AllocError>
    requires { IsNonDecreasingBy (λ (other : TheVersion). other.at) held.old.items }
    ensures { OnOk result (held.new.items ≡ filter (λ other. nat_lt other.at version.at) held.old.items ++ version ∷ filter (λ other. not (nat_lt other.at version.at)) held.old.items) }
{
    let place = held.partition_point(|other| other.at < version.at);
    held.insert(place, version)?;
    Ok(())
}

fn moments_of(alloc: Global, held: &[Version]) -> Result<Vec<Moment>, AllocError>
    ensures { IfOk result (λ moments. moments.items ≡ map (λ version. version.at) held.now) }
{
    held.iter().map(|version| version.at).collect(alloc)
}

/// Whether the moment is one of some that fall.
fn is_among(moments: &[Moment], at: Moment) -> bool
    requires { AreFalling moments.now }
    ensures { result ≡ is_among moments.now at }
{
    moments.binary_search_by(|moment| at.cmp(moment)).is_ok()
}

/// Those of some moments.
fn those_at(alloc: Global, held: &[Version], moments: &[Moment]) -> Result<Vec<Version>, AllocError>
    requires { AreFalling moments.now }
    ensures { IfOk result (λ versions. versions.items ≡ filter (λ version. is_among moments.now version.at) held.now) }
{
    held.iter()
        .filter(|version| is_among(moments, version.at))
        .copied()
        .collect(alloc)
}

/// Leaves those of some moments out.
fn leave_out(held: &mut Vec<Version>, moments: &[Moment])
    requires { AreFalling moments.now }
    ensures { held.new.items ≡ filter (λ version. not (is_among moments.now version.at)) held.old.items }
{
    held.retain(|version| !is_among(moments, version.at));
}

/// What the bound sees of what is replaced.
fn replaced(row: &NodeRow) -> Version
    ensures { result ≡ held (version_for row.now) }
{
    Version {
        node: row.id,
        at: row.changed,
        size: row.content.size(),
    }
}

/// What a file has, as a version.
fn version_for(row: &NodeRow) -> Result<VersionRow, AllocError>
    ensures { IfOk result (λ version. version ≡ version_for row.now) }
{
    Ok(VersionRow {
        node: row.id,
        at: row.changed,
        content: row.content.clone()?,
    })
}

/// Some versions are dropped.
pub(crate) fn push_dropped(changes: &mut Changes, versions: &[Version]) -> Result<(), AllocError>
    ensures { OnOk result (changes.new ≡ changes.old ++ map drop_version versions.now) }
{
    for version in versions {
        changes.push(dropped(version.node, version.at))?;
    }
    Ok(())
}

/// The versions that go are dropped, but for what is replaced, which was none.
fn push_gone(
    changes: &mut Changes,
    row: &NodeRow,
    becomes: bool,
    gone: &[Version],
) -> Result<(), AllocError>
    ensures { OnOk result (changes.new ≡ changes.old ++ drop_gone becomes row.now gone.now) }
{
    for version in gone {
        if !(becomes && is_version(version, row.id, row.changed)) {
            changes.push(dropped(version.node, version.at))?;
        }
    }
    Ok(())
}

/// A file's row has another content, where that is another.
fn push_filled(
    changes: &mut Changes,
    row: &NodeRow,
    moment: Moment,
    content: Content,
) -> Result<(), AllocError>
    requires { is_folder_kind row.now.kind ≡ false }
    ensures { OnOk result (changes.new ≡ changes.old ++ (if is_same moment content row.now then [] else Put (rows.Node (filled content moment row.now)) ∷ [])) }
{
    if !is_same(row, moment, &content) {
        changes.push(Change::Put(Row::Node(filled(row, moment, content)?)))?;
    }
    Ok(())
}

/// Whether a row has that content since that moment.
fn is_same(row: &NodeRow, moment: Moment, content: &Content) -> bool
    ensures { result ≡ is_same moment content.now row.now }
{
    row.content == *content && row.changed == moment
}

/// A row with another content.
fn filled(row: &NodeRow, moment: Moment, content: Content) -> Result<NodeRow, AllocError>
    requires { is_folder_kind row.now.kind ≡ false }
    ensures { IfOk result (λ whole. whole ≡ filled content moment row.now) }
{
    Ok(NodeRow {
        name: row.name.copy()?,
        content,
        changed: moment,
        ..*row
    })
}
