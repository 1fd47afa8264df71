//! Plans: steps before they are made.

ghost use Rattle.std.specs.Prelude.{◌≡◌, [], IfOk, Ok};
ghost use Rattle.nf_site.specs.Held.{added_in};
ghost use Rattle.nf_site.specs.Beside.{DoesSame, beside, beside_report};
ghost use Rattle.nf_words.specs.Prelude.{blob_by, hold_of, reply_to, reported};
ghost use Rattle.nf_words.specs.declared.answer.Allowed.TheVariants.{Close};

use crate::copies::copy_share;
use nf_base::{BlobId, Changes, Moment, NodeId};
use nf_state::{RowCounts, added_by, blob_of, hold_of};
use nf_view::View;
use nf_words::{Allowed, Denial, Event, Goal, Hold, Reply, Report};
use std::alloc::{AllocError, Global};
use std::marker::Model;

/// An act with what is answered beside it, and what its seat holds for it. A long list that is answered stays in the act until it is
/// done: a copy would take its time while everybody waits.
#[derive(Drop)]
pub(crate) struct Deed {
    pub(crate) act: Allowed,
    pub(crate) reply: Reply,
    pub(crate) hold: Option<Hold>,
    ghost replies: { reply ≡ beside act },
    ghost holds: { hold ≡ hold_of act },
}

/// A step of a seat's event before it is made: what it does, its answer, and the rows that it changes.
#[derive(Drop)]
pub struct Plan {
    pub(crate) seat: u64,
    pub(crate) moment: Moment,
    pub(crate) event: Event,
    pub(crate) decided: Result<Deed, Denial>,
    pub(crate) changes: Changes,
}

impl Model for Plan {
    ghost use Rattle.nf_site.specs.Plans.{Planned};

    ghost Value = { Planned };

    ghost use Rattle.nf_site.specs.PlanView.{planned_in};

    ghost view = { planned_in };
}

impl Plan {
    ghost use Rattle.nf_site.specs.PlanView.{decision_in};

    /// An End that brings no body.
    pub(crate) fn closing(alloc: Global, seat: u64, moment: Moment, event: Event) -> Plan
        ensures { result ≡ record { seat = seat; moment = moment; event = event; decision = Ok Close; changes = [] } }
    {
        let deed = Deed {
            act: Allowed::Close,
            reply: Reply::Closed,
            hold: None,
        };
        Plan::new(seat, moment, event, Ok(deed), Changes::new(alloc))
    }

    pub(crate) fn new(
        seat: u64,
        moment: Moment,
        event: Event,
        decided: Result<Deed, Denial>,
        changes: Changes,
    ) -> Plan
        ensures { result ≡ record { seat = seat; moment = moment; event = event; decision = decision_in decided; changes = changes } }
    {
        Plan {
            seat,
            moment,
            event,
            decided,
            changes,
        }
    }

    /// The rows that the step changes, which a store is told before the plan is adopted.
    pub fn changes(&self) -> &Changes
        ensures { result.now ≡ self.now.changes }
    {
        &self.changes
    }

    /// The blob in which the step stores bytes, if it does.
    pub fn blob(&self) -> Option<BlobId>
        ensures { result ≡ blob_by self.now.decision }
    {
        match &self.decided {
            Ok(deed) => blob_of(&deed.act),
            Err(_) => None,
        }
    }

    /// How many rows the step adds at most.
    pub(crate) fn added(&self, view: &View<'_>) -> RowCounts
        ensures { result ≡ added_in view.now.tables self.now.decision }
    {
        match &self.decided {
            Ok(deed) => added_by(view, &deed.act),
            Err(_) => RowCounts::only_nodes(0),
        }
    }

    /// The event alone, where the step isn't made.
    pub fn into_event(self) -> Event
        ensures { result ≡ self.event }
    {
        self.event
    }
}

impl Deed {
    /// It copies what the reply hands out beside the act, and what is held.
    pub(crate) fn new(alloc: Global, act: Allowed) -> Result<Deed, AllocError>
        ensures { IfOk result (λ deed. deed.act ≡ act) }
    {
        let (reply, hold) = copied(alloc, &act)?;
        Ok(Deed { act, reply, hold })
    }
}

/// The act that is left to do, and the reply, to which a list that is answered is handed over.
pub(crate) fn parted(act: Allowed, reply: Reply) -> (Allowed, Reply)
    requires { reply ≡ beside act }
    ensures reply { result.1 ≡ reply_to act }
    ensures same { DoesSame act result.0 }
{
    match act {
        Allowed::List(listing) => (Allowed::Close, Reply::Listing(listing)),
        Allowed::Change {
            changes,
            blob,
            report,
        } => {
            let act = Allowed::Change {
                changes,
                blob,
                report: Report::Plain,
            };
            (act, handed_over(report, reply))
        }
        Allowed::Deeds { deeds, report } => {
            let act = Allowed::Deeds {
                deeds,
                report: Report::Plain,
            };
            (act, handed_over(report, reply))
        }
        act => (act, reply),
    }
}

/// The reply of a report.
fn handed_over(report: Report, reply: Reply) -> Reply
    requires { reply ≡ beside_report report }
    ensures { result ≡ reported report }
{
    match report {
        Report::Shares(lines) => Reply::Shares(lines),
        Report::Items(lines) => Reply::Items(lines),
        Report::Versions(lines) => Reply::Versions(lines),
        Report::Made | Report::Done | Report::Share(_) | Report::Plain => reply,
    }
}

/// What is answered beside an act, and what is held for it.
fn copied(alloc: Global, act: &Allowed) -> Result<(Reply, Option<Hold>), AllocError>
    ensures reply { IfOk result (λ made. made.0 ≡ beside act.now) }
    ensures hold { IfOk result (λ made. made.1 ≡ hold_of act.now) }
{
    let reply = beside(alloc, act)?;
    let hold = hold_of(act)?;
    Ok((reply, hold))
}

fn beside(alloc: Global, act: &Allowed) -> Result<Reply, AllocError>
    ensures { IfOk result (λ reply. reply ≡ beside act.now) }
{
    match act {
        Allowed::Get { node: _, content } => Ok(Reply::Granted(Goal::Serve(content.clone()?))),
        Allowed::Put { by, key, length } => Ok(Reply::Granted(Goal::Store {
            by: *by,
            key: key.copy()?,
            length: *length,
        })),
        Allowed::Chunk {
            user,
            dir,
            number,
            length,
        } => Ok(Reply::Granted(Goal::Chunk {
            user: *user,
            dir: dir.copy()?,
            number: *number,
            length: *length,
        })),
        Allowed::Change { report, .. } | Allowed::Deeds { report, .. } => beside_report(report),
        Allowed::List(_) | Allowed::Close => Ok(Reply::Closed),
    }
}

fn beside_report(report: &Report) -> Result<Reply, AllocError>
    ensures { IfOk result (λ reply. reply ≡ beside_report report.now) }
{
    match report {
        Report::Made => Ok(Reply::Made),
        Report::Done => Ok(Reply::Done),
        Report::Share(line) => Ok(Reply::Share(copy_share(line)?)),
        Report::Shares(_) | Report::Items(_) | Report::Versions(_) => Ok(Reply::Closed),
        Report::Plain => Ok(Reply::Plain),
    }
}
