//! What is done and told of what is asked about shares.

ghost use Rattle.std.specs.Prelude.{◌≡◌, ◌==◌, ◌++◌, ◌∷◌, [], None, IfOk, IsSome, OnOk, filter, filter_map, option_copied, if◌then◌else◌};
ghost use Rattle.std.specs.Option.{option_map_or};
ghost use Rattle.nf_base.specs.declared.changes.Change.TheVariants.{Put};
ghost use Rattle.nf_base.specs.declared.rows.Row.TheVariants as kinds;
ghost use Rattle.nf_defs.specs.Prelude.{node_row};
ghost use Rattle.nf_words.specs.Prelude.{access_of, AreSound, nothing_done, share_ended, share_made, share_set, share_told, shared};
ghost use Rattle.nf_words.specs.Sharing.{is_listed_for, is_on, mounts_for, perms_after, recipient_of, share_line, share_lines, until_after};
ghost use Rattle.nf_words.specs.Changes.{same_end, set_row};
ghost use Rattle.nf_words.specs.People.{put_mounts};
ghost use Rattle.nf_words.specs.declared.answer.Allowed.TheVariants as allowed;
ghost use Rattle.nf_words.specs.declared.answer.Report.TheVariants as report;
ghost use Rattle.nf_reach.specs.Asking.{user_in};
ghost use Rattle.nf_decide.specs.Deciding.{IsThere, asking_of, offer_by};

use crate::deciding::Call;
use crate::sharing::{is_steered_by, perms_after};
use crate::tokens::kind_to;
use nf_base::{Change, Changes, Moment, MountRow, NodeId, Perms, Row, ShareKind, ShareRow};
use nf_deeds::{mounts_for, nothing_done, push_mounts};
use nf_reach::Asker;
use nf_view::{View, ended, node_at};
use nf_words::{Allowed, Offer, Places, Recipient, Report, ShareAsk, ShareLine, ShareLines, Until};
use std::alloc::{AllocError, Global};

impl<'a> Call<'a> {
    /// What is done and told of what is asked about shares.
    #[tactic(auto, using(crate::proofs::Askers::user_asks))]
    pub(crate) fn shared(
        &self,
        alloc: Global,
        asker: &Asker<'_>,
        offer: &Option<Offer>,
        places: &Places,
        ask: &ShareAsk,
    ) -> Result<Allowed, AllocError>
        requires sound { AreSound self.now.state.tables }
        requires asker { asker.now ≡ asking_of self.now }
        requires offer { offer.now ≡ offer_by self.now ask.now }
        requires there { IsThere self.now.state.tables offer.now }
        ensures { IfOk result (λ allowed. allowed ≡ shared (access_of self.entry.now.state) self.entry.now places.now ask.now) }
    {
        match ask {
            ShareAsk::New { .. } => self.share_made(alloc, asker, offer),
            ShareAsk::List { with_me, .. } => {
                shares_told(alloc, &self.view, asker, &node_at(places.source), *with_me)
            }
            ShareAsk::Show(share) => {
                let row = self.share_shown(asker, *share);
                shown(alloc, &self.view, row)
            }
            ShareAsk::Set {
                share,
                perms,
                until,
            } => {
                let row = self.share_steered(asker, *share);
                set(alloc, &self.view, *perms, *until, row)
            }
            ShareAsk::End(share) => {
                let row = self.share_steered(asker, *share);
                share_ended(alloc, row)
            }
        }
    }

    /// A share is made, where one is asked for that can be made.
    fn share_made(
        &self,
        alloc: Global,
        asker: &Asker<'_>,
        offer: &Option<Offer>,
    ) -> Result<Allowed, AllocError>
        requires sound { AreSound self.now.state.tables }
        requires asker { asker.now ≡ asking_of self.now }
        requires there { IsThere self.now.state.tables offer.now }
        ensures { IfOk result (λ allowed. allowed ≡ option_map_or (share_made (access_of self.entry.now.state) self.entry.now) offer.now nothing_done) }
    {
        match offer {
            Some(offer) => self.share_of(alloc, asker, offer),
            None => Ok(nothing_done(alloc)),
        }
    }

    /// A share is made, and those whom it names have mounts of the node.
    fn share_of(
        &self,
        alloc: Global,
        asker: &Asker<'_>,
        offer: &Offer,
    ) -> Result<Allowed, AllocError>
        requires sound { AreSound self.now.state.tables }
        requires asker { asker.now ≡ asking_of self.now }
        requires there { IsSome (node_row self.now.state.tables.nodes offer.now.node) }
        ensures { IfOk result (λ allowed. allowed ≡ share_made (access_of self.entry.now.state) self.entry.now offer.now) }
    {
        let kind = kind_to(alloc, self.words, offer.to)?;
        let row = self.new_share(asker, offer, kind);
        let mounts = mounts_for(alloc, &self.view, offer)?;
        put(alloc, &self.view, row, mounts)
    }
}

/// A share is put with some mounts, and told.
fn put(
    alloc: Global,
    view: &View<'_>,
    row: ShareRow,
    mounts: Vec<MountRow>,
) -> Result<Allowed, AllocError>
    ensures { IfOk result (λ allowed. allowed ≡ share_told view.now.tables (Put (kinds.Share row) ∷ put_mounts mounts.items) row) }
{
    let report = report_of(view, &row)?;
    Ok(Allowed::Change {
        changes: made(alloc, row, mounts)?,
        blob: None,
        report,
    })
}

/// The changes that put a share and some mounts.
fn made(alloc: Global, row: ShareRow, mounts: Vec<MountRow>) -> Result<Changes, AllocError>
    ensures { IfOk result (λ changes. changes ≡ Put (kinds.Share row) ∷ put_mounts mounts.items) }
{
    let mut changes = only(alloc, row)?;
    push_mounts(&mut changes, mounts)?;
    Ok(changes)
}

/// The change that puts a share.
fn only(alloc: Global, row: ShareRow) -> Result<Changes, AllocError>
    ensures { IfOk result (λ changes. changes ≡ Put (kinds.Share row) ∷ []) }
{
    let mut changes = Changes::new(alloc);
    changes.push(Change::Put(Row::Share(row)))?;
    Ok(changes)
}

/// A share is told, if there is one.
fn shown(alloc: Global, view: &View<'_>, row: Option<&ShareRow>) -> Result<Allowed, AllocError>
    ensures { IfOk result (λ allowed. allowed ≡ option_map_or (share_told view.now.tables []) (option_copied row.entry) nothing_done) }
{
    let Some(row) = row else {
        return Ok(nothing_done(alloc));
    };
    Ok(Allowed::Change {
        changes: Changes::new(alloc),
        blob: None,
        report: report_of(view, row)?,
    })
}

/// A share, if there is one, has the permissions and the end that are asked for.
fn set(
    alloc: Global,
    view: &View<'_>,
    perms: Option<Perms>,
    until: Until,
    row: Option<&ShareRow>,
) -> Result<Allowed, AllocError>
    ensures { IfOk result (λ allowed. allowed ≡ option_map_or (λ row. share_set view.now.tables (perms_after view.now.tables perms row) (until_after until row.until) row) (option_copied row.entry) nothing_done) }
{
    match row {
        Some(row) => {
            let end = until_after(until, row.until);
            share_set(alloc, view, perms_after(view, perms, row), end, row)
        }
        None => Ok(nothing_done(alloc)),
    }
}

/// The end that a share has once one is asked for.
fn until_after(until: Until, old: Option<Moment>) -> Option<Moment>
    ensures { result ≡ until_after until old }
{
    match until {
        Until::Keep => old,
        Until::Never => None,
        Until::At(moment) => Some(moment),
    }
}

/// Whether two ends are the same.
fn same_end(end: Option<Moment>, other: Option<Moment>) -> bool
    ensures { result ≡ same_end end other }
{
    match (end, other) {
        (Some(moment), Some(old)) => old == moment,
        (None, None) => true,
        (Some(_), None) | (None, Some(_)) => false,
    }
}

/// A share has those permissions and that end.
fn share_set(
    alloc: Global,
    view: &View<'_>,
    perms: Perms,
    until: Option<Moment>,
    row: &ShareRow,
) -> Result<Allowed, AllocError>
    ensures { IfOk result (λ allowed. allowed ≡ share_set view.now.tables perms until row.now) }
{
    let is_same = perms == row.perms && same_end(until, row.until);
    let row = set_row(perms, until, row)?;
    let report = report_of(view, &row)?;
    Ok(Allowed::Change {
        changes: unless_same(alloc, is_same, row)?,
        blob: None,
        report,
    })
}

/// The row of a share with those permissions and that end.
fn set_row(perms: Perms, until: Option<Moment>, row: &ShareRow) -> Result<ShareRow, AllocError>
    ensures { IfOk result (λ other. other ≡ set_row perms until row.now) }
{
    let mut row = row.clone()?;
    row.perms = perms;
    row.until = until;
    Ok(row)
}

/// The change that puts a share, unless it is the same.
fn unless_same(alloc: Global, is_same: bool, row: ShareRow) -> Result<Changes, AllocError>
    ensures { IfOk result (λ changes. changes ≡ (if is_same then [] else Put (kinds.Share row) ∷ [])) }
{
    if is_same {
        Ok(Changes::new(alloc))
    } else {
        only(alloc, row)
    }
}

/// A share, if there is one, is ended.
fn share_ended(alloc: Global, row: Option<&ShareRow>) -> Result<Allowed, AllocError>
    ensures { IfOk result (λ allowed. allowed ≡ option_map_or share_ended (option_copied row.entry) nothing_done) }
{
    let Some(row) = row else {
        return Ok(nothing_done(alloc));
    };
    Ok(Allowed::Change {
        changes: only(alloc, ended(row)?)?,
        blob: None,
        report: Report::Plain,
    })
}

// ---- what is told

/// A share as it is then, where those whom it names are there.
fn report_of(view: &View<'_>, row: &ShareRow) -> Result<Report, AllocError>
    ensures { IfOk result (λ told. told ≡ option_map_or report.Share (share_line view.now.tables row.now) report.Plain) }
{
    match share_line(view, row)? {
        Some(line) => Ok(Report::Share(line)),
        None => Ok(Report::Plain),
    }
}

/// Shares are told.
fn shares_told(
    alloc: Global,
    view: &View<'_>,
    asker: &Asker<'_>,
    node: &Option<NodeId>,
    with_me: bool,
) -> Result<Allowed, AllocError>
    requires { asker.now.base.members ≡ view.now.tables.members }
    ensures { IfOk result (λ told. told ≡ allowed.Change [] None (report.Shares (share_lines view.now.tables (user_in asker.now.seeker) node.now with_me))) }
{
    let lines = share_lines(alloc, view, asker, node, with_me)?;
    Ok(Allowed::Change {
        changes: Changes::new(alloc),
        blob: None,
        report: Report::Shares(ShareLines::new(lines)),
    })
}

/// The lines of the shares that are listed.
fn share_lines(
    alloc: Global,
    view: &View<'_>,
    asker: &Asker<'_>,
    node: &Option<NodeId>,
    with_me: bool,
) -> Result<Vec<ShareLine>, AllocError>
    requires { asker.now.base.members ≡ view.now.tables.members }
    ensures { IfOk result (λ lines. lines.items ≡ share_lines view.now.tables (user_in asker.now.seeker) node.now with_me) }
{
    let mut lines = Vec::new(alloc);
    for row in view.shares().rows() {
        push_share(view, asker, node, with_me, row, &mut lines)?;
    }
    Ok(lines)
}

/// Puts the line of a share at the end, where it is listed and those whom it names are there.
fn push_share(
    view: &View<'_>,
    asker: &Asker<'_>,
    node: &Option<NodeId>,
    with_me: bool,
    row: &ShareRow,
    lines: &mut Vec<ShareLine>,
) -> Result<(), AllocError>
    ensures { OnOk result (lines.new.items ≡ lines.old.items ++ filter_map (share_line view.now.tables) (filter (is_listed_for asker.now.base.members (user_in asker.now.seeker) node.now with_me) (row.now ∷ []))) }
{
    if !is_listed_for(asker, node, with_me, row) {
        return Ok(());
    }
    if let Some(line) = share_line(view, row)? {
        lines.push(line)?;
    }
    Ok(())
}

/// Whether a share is listed: one that isn't ended, of that node if one is named, and made or owned by who asks or received by it.
fn is_listed_for(asker: &Asker<'_>, node: &Option<NodeId>, with_me: bool, row: &ShareRow) -> bool
    ensures { result ≡ is_listed_for asker.now.base.members (user_in asker.now.seeker) node.now with_me row.now }
{
    if row.ended || !is_on(node, row) {
        return false;
    }
    if with_me {
        asker.receives(row)
    } else if node.is_some() {
        is_steered_by(asker.user(), row)
    } else {
        row.initiator == asker.user()
    }
}

/// Whether a share is of that node, if one is named.
fn is_on(node: &Option<NodeId>, row: &ShareRow) -> bool
    ensures { result ≡ is_on node.now row.now }
{
    match node {
        Some(node) => row.node == *node,
        None => true,
    }
}

/// What is told of a share, where the rows of those whom it names are there.
fn share_line(view: &View<'_>, row: &ShareRow) -> Result<Option<ShareLine>, AllocError>
    ensures { IfOk result (λ line. line ≡ share_line view.now.tables row.now) }
{
    let people = view.people();
    let Some(to) = recipient_of(view, &row.kind)? else {
        return Ok(None);
    };
    let Some(owner) = people.row(row.owner) else {
        return Ok(None);
    };
    let Some(initiator) = people.row(row.initiator) else {
        return Ok(None);
    };
    Ok(Some(ShareLine {
        id: row.id,
        node: row.node,
        parent: row.parent,
        permissions: row.perms,
        until: row.until,
        to,
        owner: owner.name.copy()?,
        initiator: initiator.name.copy()?,
    }))
}

fn recipient_of(view: &View<'_>, kind: &ShareKind) -> Result<Option<Recipient>, AllocError>
    ensures { IfOk result (λ to. to ≡ recipient_of view.now.tables kind.now) }
{
    match kind {
        ShareKind::User(user) => match view.people().row(*user) {
            Some(row) => Ok(Some(Recipient::User(row.name.copy()?))),
            None => Ok(None),
        },
        ShareKind::Group(group) => match view.people().group_row(*group) {
            Some(row) => Ok(Some(Recipient::Group(row.name.copy()?))),
            None => Ok(None),
        },
        ShareKind::Link(token) => Ok(Some(Recipient::Link(token.copy()?))),
    }
}
