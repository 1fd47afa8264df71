//! The versions of files: which there are, and what is sent and told of them.

ghost use Rattle.std.specs.Prelude.{◌≡◌, ◌≤◌, ◌&&◌, ◌||◌, [], IfOk, None, Some, if◌then◌else◌, is_some, map};
ghost use Rattle.std.specs.Option.{option_map_or};
ghost use Rattle.nf_base.specs.declared.rows.VersionRow.{VersionRow as TheRow};
ghost use Rattle.nf_reach.specs.Asking.{refusal_for, user_in};
ghost use Rattle.nf_words.specs.Prelude.{access_of, act_asked, AreSound, is_owner, mount_above, needed_for, node_asked, nothing_done, unversioned, version_done, version_rule};
ghost use Rattle.nf_words.specs.Needed.{version_needs};
ghost use Rattle.nf_words.specs.declared.answer.Denial.TheVariants.{NotFound};
ghost use Rattle.nf_words.specs.Versions.{version_line, version_lines, version_row, versions_of};
ghost use Rattle.nf_words.specs.declared.answer.Allowed.TheVariants as allowed;
ghost use Rattle.nf_words.specs.declared.answer.Report.TheVariants as report;
ghost use Rattle.nf_decide.specs.Deciding.{Follows, asking_of};

use crate::deciding::Call;
use nf_base::{Act, Changes, Moment, NodeId, VersionRow};
use nf_deeds::{nothing_done, version_back};
use nf_reach::Asker;
use nf_view::{View, is_folder, version_row, versions_of};
use nf_words::{Allowed, Denial, Report, VersionAsk, VersionLine, Versions, Wanted};
use std::alloc::{AllocError, Global};

/// The node that is asked about.
fn node_asked(ask: &VersionAsk) -> NodeId
    ensures { result ≡ node_asked ask.now }
{
    match ask {
        VersionAsk::List { node, .. }
        | VersionAsk::Get { node, .. }
        | VersionAsk::Restore { node, .. } => *node,
    }
}

/// What who asks has to be allowed at the node.
fn act_asked(ask: &VersionAsk) -> Act
    ensures { result ≡ act_asked ask.now }
{
    match ask {
        VersionAsk::List { .. } | VersionAsk::Get { .. } => Act::Read,
        VersionAsk::Restore { .. } => Act::Update,
    }
}

/// Whether who asks owns the node, or has a mount at it or above it.
fn is_seen(asker: &Asker<'_>, node: NodeId) -> bool
    ensures { result ≡ (is_owner asker.now.base.nodes asker.now.seeker node || is_some (mount_above asker.now.base.nodes asker.now.mounts (user_in asker.now.seeker) node)) }
{
    asker.owns(node) || asker.mount_above(node).is_some()
}

/// `not-found`, unless a node is there and seen.
fn unseen(is_present: bool, is_seen: bool) -> Option<Denial>
    ensures { result ≡ (if is_present && is_seen then None else Some NotFound) }
{
    if is_present && is_seen {
        None
    } else {
        Some(Denial::NotFound)
    }
}

impl<'a> Call<'a> {
    // ---- the rules

    /// `not-found`: the node isn't present, or the caller neither owns it nor has a mount at it or above it.
    pub(crate) fn unversioned(&self, asker: &Asker<'_>, ask: &VersionAsk) -> Option<Denial>
        requires { asker.now ≡ asking_of self.now }
        ensures { result ≡ unversioned self.entry.now ask.now }
    {
        let node = node_asked(ask);
        let is_present = self.tree().present(node);
        unseen(is_present, is_seen(asker, node))
    }

    /// `no-share` and `broken-link`, where versions are asked about.
    pub(crate) fn version_refused(&self, asker: &Asker<'_>) -> Option<Denial>
        requires { asker.now ≡ asking_of self.now }
        ensures { result ≡ refusal_for (asking_of self.entry.now) (needed_for (access_of self.entry.now.state) self.entry.now self.entry.now.request.wanted) }
    {
        match &self.request.wanted {
            Wanted::Version(ask) => self.ask_refused(asker, ask),
            Wanted::Share(_)
            | Wanted::People(_)
            | Wanted::Trash(_)
            | Wanted::Upload(_)
            | Wanted::Get(_)
            | Wanted::Put { .. }
            | Wanted::Mkcol(_)
            | Wanted::Delete(_)
            | Wanted::Move { .. }
            | Wanted::Copy { .. } => None,
        }
    }

    /// The same of what is asked about them.
    fn ask_refused(&self, asker: &Asker<'_>, ask: &VersionAsk) -> Option<Denial>
        requires { asker.now ≡ asking_of self.now }
        ensures { result ≡ refusal_for (asking_of self.entry.now) (version_needs (access_of self.entry.now.state) self.entry.now ask.now) }
    {
        let (act, node) = (act_asked(ask), node_asked(ask));
        asker.refused(act, node, asker.mount_by(act, node))
    }

    /// `kind` and `not-found`: a folder has no versions, or the file hasn't that one.
    #[tactic(auto, unfolding(nf_words::specs::Reached::version_rule))]
    pub(crate) fn lacks_version(&self) -> Result<(), Denial>
        ensures { Follows (version_rule (access_of self.entry.now.state)) self.entry.now result }
    {
        let Wanted::Version(ask) = &self.request.wanted else {
            return Ok(());
        };
        if is_folder(self.view.tree(), node_asked(ask)) {
            return Err(Denial::Kind);
        }
        match ask {
            VersionAsk::List { .. } => Ok(()),
            VersionAsk::Get { node, at, .. } | VersionAsk::Restore { node, at, .. } => {
                match version_row(&self.view, *node, *at) {
                    Some(_) => Ok(()),
                    None => Err(Denial::NotFound),
                }
            }
        }
    }

    // ---- what is done and told

    /// What is done and told of what is asked about versions.
    pub(crate) fn version_done(
        &self,
        alloc: Global,
        ask: &VersionAsk,
    ) -> Result<Allowed, AllocError>
        requires sound { AreSound self.now.state.tables }
        requires late { self.now.state.tables.meta.last ≤ self.now.now }
        ensures { IfOk result (λ allowed. allowed ≡ version_done self.entry.now.state.tables self.entry.now.now ask.now) }
    {
        let view = &self.view;
        match ask {
            VersionAsk::List { node, .. } => listed(alloc, view, *node),
            VersionAsk::Get { node, at, .. } => sent(alloc, view, *node, *at),
            VersionAsk::Restore { node, at, .. } => {
                version_back(alloc, view, self.now, *node, *at)
            }
        }
    }
}

/// The versions of a file are told.
fn listed(alloc: Global, view: &View<'_>, node: NodeId) -> Result<Allowed, AllocError>
    ensures { IfOk result (λ act. act ≡ allowed.Change [] None (report.Versions (version_lines view.now.tables.versions node))) }
{
    let mut lines = lines_of(alloc, versions_of(view, node))?;
    lines.reverse();
    Ok(Allowed::Change {
        changes: Changes::new(alloc),
        blob: None,
        report: Report::Versions(Versions::new(lines)),
    })
}

fn lines_of(alloc: Global, rows: &[VersionRow]) -> Result<Vec<VersionLine>, AllocError>
    ensures { IfOk result (λ lines. lines.items ≡ map version_line rows.now) }
{
    rows.iter()
        .map(|row| VersionLine {
            at: row.at,
            size: row.content.size(),
        })
        .collect(alloc)
}

/// The content of a version is sent, if the version is there.
fn sent(alloc: Global, view: &View<'_>, node: NodeId, at: Moment) -> Result<Allowed, AllocError>
    ensures { IfOk result (λ act. act ≡ option_map_or (λ (row : TheRow). allowed.Get node row.content) (version_row view.now.tables.versions node at) nothing_done) }
{
    match version_row(view, node, at) {
        Some(row) => Ok(Allowed::Get {
            node,
            content: row.content.clone()?,
        }),
        None => Ok(nothing_done(alloc)),
    }
}
