//! What is sent and listed.

ghost use Rattle.std.specs.Prelude.{◌≡◌, ◌∷◌, ◌++◌, [], ◌==◌, if◌then◌else◌, filter, filter_map, IfOk, OnOk};
ghost use Rattle.std.specs.Cmp.Lexicographic.{slice_cmp};
ghost use Rattle.std.specs.Ordering.{nat_cmp};
ghost use Rattle.nf_access.specs.Access.{by_chains};
ghost use Rattle.nf_defs.specs.declared.Seeker.TheVariants.{User};
ghost use Rattle.nf_words.specs.Prelude.{access_of, AreSound, child_line, child_lines, is_ones_own, line_of, listing_of, mount_line, mount_lines, put_lines, served, shown};
ghost use Rattle.nf_words.specs.Listing.{all_permissions};
ghost use Rattle.nf_decide.specs.Deciding.{asking_of};
ghost use Rattle.nf_decide.specs.Listed.{AreByName, is_listed};

use crate::deciding::Call;
use nf_base::{MountRow, Name, NodeId, NodeRow, Perms, UserId};
use nf_defs::Seeker;
use nf_reach::Asker;
use nf_view::{View, content_of, is_folder};
use nf_words::{Allowed, Listing, ListingLine};
use std::alloc::{AllocError, Global};
use std::cmp::Ordering;

impl<'a> Call<'a> {
    /// GET lists the folder that is there, or sends the content of the file.
    pub(crate) fn served(
        &self,
        alloc: Global,
        asker: &Asker<'_>,
        mount: Option<NodeId>,
        node: Option<NodeId>,
    ) -> Result<Allowed, AllocError>
        requires asker { asker.now ≡ asking_of self.now }
        requires sound { AreSound self.now.state.tables }
        ensures { IfOk result (λ allowed. allowed ≡ served (access_of self.entry.now.state) self.entry.now mount node) }
    {
        match node {
            Some(node) => self.shown(alloc, asker, mount, node),
            None => Ok(Allowed::Close),
        }
    }

    fn shown(
        &self,
        alloc: Global,
        asker: &Asker<'_>,
        mount: Option<NodeId>,
        node: NodeId,
    ) -> Result<Allowed, AllocError>
        requires asker { asker.now ≡ asking_of self.now }
        requires sound { AreSound self.now.state.tables }
        ensures { IfOk result (λ allowed. allowed ≡ shown (access_of self.entry.now.state) self.entry.now mount node) }
    {
        let tree = self.view.tree();
        if is_folder(tree, node) {
            let listing = self.listing_of(alloc, asker, mount, node)?;
            return Ok(Allowed::List(listing));
        }
        Ok(Allowed::Get {
            node,
            content: content_of(alloc, tree, node)?,
        })
    }

    /// What is in a folder to which a path leads by a mount, if it goes by one.
    fn listing_of(
        &self,
        alloc: Global,
        asker: &Asker<'_>,
        mount: Option<NodeId>,
        folder: NodeId,
    ) -> Result<Listing, AllocError>
        requires asker { asker.now ≡ asking_of self.now }
        requires sound { AreSound self.now.state.tables }
        ensures { IfOk result (λ listing. listing ≡ listing_of (access_of self.entry.now.state) self.entry.now mount folder) }
    {
        let granted = asker.granted_by(mount);
        let children = child_lines(alloc, &self.view, asker, granted, folder)?;
        if folder != asker.root() {
            return Ok(Listing::new(children));
        }
        let mounts = mount_lines(alloc, &self.view, asker)?;
        Ok(Listing::new(put_lines(mounts, children)?))
    }
}

// ---- children

/// The lines of a folder's children, by name.
fn child_lines(
    alloc: Global,
    view: &View<'_>,
    asker: &Asker<'_>,
    granted: Perms,
    folder: NodeId,
) -> Result<Vec<ListingLine>, AllocError>
    requires sound { AreSound view.now.tables }
    ensures { IfOk result (λ lines. lines.items ≡ child_lines view.now.tables asker.now.seeker granted folder) }
{
    let mut lines = Vec::new(alloc);
    let children = view.tree().children(alloc, folder)?;
    for child in &children {
        push_child(alloc, view, asker, granted, *child, &mut lines)?;
    }
    Ok(lines)
}

/// Puts the line of a child at the end, where it and its owner are there.
fn push_child(
    alloc: Global,
    view: &View<'_>,
    asker: &Asker<'_>,
    granted: Perms,
    node: NodeId,
    lines: &mut Vec<ListingLine>,
) -> Result<(), AllocError>
    requires sound { AreSound view.now.tables }
    ensures { OnOk result (lines.new.items ≡ lines.old.items ++ filter_map (child_line view.now.tables asker.now.seeker granted) (node ∷ [])) }
{
    let Some(row) = view.tree().node(node) else {
        return Ok(());
    };
    if let Some(line) = line_of(alloc, view, asker.seeker(), granted, &row.name, row)? {
        lines.push(line)?;
    }
    Ok(())
}

// ---- mounts

/// The lines of the mounts of who asks that are listed; a link has none.
fn mount_lines(
    alloc: Global,
    view: &View<'_>,
    asker: &Asker<'_>,
) -> Result<Vec<ListingLine>, AllocError>
    requires sound { AreSound view.now.tables }
    requires mounts { asker.now.mounts ≡ view.now.tables.mounts }
    ensures { IfOk result (λ lines. lines.items ≡ mount_lines (by_chains asker.now.base) view.now.tables asker.now.moment asker.now.seeker) }
{
    match asker.seeker() {
        Seeker::User(user) => lines_of(alloc, view, asker, user),
        Seeker::Link(_) => Ok(Vec::new(alloc)),
    }
}

/// The lines of a user's mounts that are listed, where the user asks.
fn lines_of(
    alloc: Global,
    view: &View<'_>,
    asker: &Asker<'_>,
    user: UserId,
) -> Result<Vec<ListingLine>, AllocError>
    requires sound { AreSound view.now.tables }
    requires mounts { asker.now.mounts ≡ view.now.tables.mounts }
    requires user { asker.now.seeker ≡ User user }
    ensures { IfOk result (λ lines. lines.items ≡ mount_lines (by_chains asker.now.base) view.now.tables asker.now.moment (User user)) }
{
    let mut lines = Vec::new(alloc);
    for mount in asker.mounts(user) {
        push_mount(alloc, view, asker, mount, &mut lines)?;
    }
    Ok(lines)
}

/// Puts the line of a mount of the user's at the end, where it is listed.
fn push_mount(
    alloc: Global,
    view: &View<'_>,
    asker: &Asker<'_>,
    mount: &MountRow,
    lines: &mut Vec<ListingLine>,
) -> Result<(), AllocError>
    requires sound { AreSound view.now.tables }
    requires user { asker.now.seeker ≡ User mount.now.user }
    ensures { OnOk result (lines.new.items ≡ lines.old.items ++ filter_map (mount_line (by_chains asker.now.base) view.now.tables asker.now.moment) (filter (is_listed asker.now) (mount.now ∷ []))) }
{
    if !asker.lists(mount) {
        return Ok(());
    }
    if let Some(line) = mount_line(alloc, view, asker, mount)? {
        lines.push(line)?;
    }
    Ok(())
}

/// The line of a mount of the user's, under the name of the mount.
fn mount_line(
    alloc: Global,
    view: &View<'_>,
    asker: &Asker<'_>,
    mount: &MountRow,
) -> Result<Option<ListingLine>, AllocError>
    requires sound { AreSound view.now.tables }
    requires user { asker.now.seeker ≡ User mount.now.user }
    ensures { IfOk result (λ line. line ≡ mount_line (by_chains asker.now.base) view.now.tables asker.now.moment mount.now) }
{
    let Some(row) = view.tree().node(mount.node) else {
        return Ok(None);
    };
    let granted = asker.permissions(mount.node);
    line_of(alloc, view, asker.seeker(), granted, &mount.name, row)
}

/// Puts lines, one after the other, at their places among others by name.
fn put_lines(
    mut lines: Vec<ListingLine>,
    mut others: Vec<ListingLine>,
) -> Result<Vec<ListingLine>, AllocError>
    requires { AreByName others.items }
    ensures { IfOk result (λ all. all.items ≡ put_lines lines.items others.items) }
{
    // Of those with one name the one that is put last comes first, and the sort leaves them so.
    lines.reverse();
    lines.append(&mut others)?;
    lines.sort_by(compare_names)?;
    Ok(lines)
}

fn compare_names(a: &ListingLine, b: &ListingLine) -> Ordering
    ensures { result ≡ slice_cmp nat_cmp a.now.name b.now.name }
{
    a.name.as_bytes().cmp(b.name.as_bytes())
}

// ---- lines

/// What is told of a node whose owner is there, under that name, to a seeker who may do so much with what others own.
fn line_of(
    alloc: Global,
    view: &View<'_>,
    seeker: Seeker,
    granted: Perms,
    name: &Name,
    row: &NodeRow,
) -> Result<Option<ListingLine>, AllocError>
    requires sound { AreSound view.now.tables }
    ensures { IfOk result (λ line. line ≡ line_of view.now.tables seeker granted name.now row.now) }
{
    let Some(owner) = view.people().row(row.owner) else {
        return Ok(None);
    };
    Ok(Some(ListingLine {
        changed: row.changed,
        id: row.id,
        kind: row.kind,
        name: name.copy()?,
        owner: owner.name.copy()?,
        permissions: permissions_of(seeker, granted, row),
        size: view.size(row.id),
    }))
}

/// What a seeker may do with a node: everything with an own one.
fn permissions_of(seeker: Seeker, granted: Perms, row: &NodeRow) -> Perms
    ensures { result ≡ (if is_ones_own seeker row.now then all_permissions else granted) }
{
    if is_ones_own(seeker, row) {
        all_permissions()
    } else {
        granted
    }
}

/// Whether the node is the seeker's own; a link owns none.
fn is_ones_own(seeker: Seeker, row: &NodeRow) -> bool
    ensures { result ≡ is_ones_own seeker row.now }
{
    match seeker {
        Seeker::User(user) => row.owner == user,
        Seeker::Link(_) => false,
    }
}

/// An owner may do everything: read, update, create, delete and share.
pub(crate) fn all_permissions() -> Perms
    ensures { result ≡ all_permissions }
{
    Perms::read(31).unwrap()
}
