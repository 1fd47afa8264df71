//! The site.

ghost use Rattle.std.specs.Prelude.{◌≡◌, ◌≢◌, ℕ, ◌<◌, ◌≤◌, ◌↔◌, Contains, length, Err, IfOk, OnOk};
ghost use Rattle.nf_defs.specs.Tables.{rows_of};
ghost use Rattle.nf_laws.specs.Named.{blobs_named};
ghost use Rattle.nf_rules.specs.Ruled.{AreRuled};
ghost use Rattle.nf_site.specs.Built.{IsBuilt};
ghost use Rattle.nf_site.specs.Held.{HasEntryRoom, HasRoom, entries_wanted};
ghost use Rattle.nf_site.specs.Kept.{IsHistory, entry, entered, moment_of, stepped};
ghost use Rattle.nf_site.specs.Naming.{NamesBlob};
ghost use Rattle.nf_site.specs.PlanView.{decision_in};
ghost use Rattle.nf_site.specs.Plans.{IsPlannedAtEnd, IsReady, plan_at, plan_of};
ghost use Rattle.nf_site.specs.Totals.{all_grants, all_totals};
ghost use Rattle.nf_words.specs.Prelude.{access_of, answer_to, changes_to, decision_of, end_decision, IsSound, MayAsk, MayBear};
ghost use Rattle.nf_words.specs.declared.history.Event.TheVariants.{Begin, End};
ghost use Rattle.nf_words.specs.declared.history.Mark.TheVariants.{Answered};
ghost use Rattle.nf_site.specs.declared.site.RoomFault.TheVariants.{Full};

use crate::Plan;
use crate::named::{name_chunks, name_nodes, name_tickets, name_versions};
use crate::plan::{Deed, parted};
use crate::totals::{Totals, totals_in};
use nf_base::{BlobId, Changes, MAX_ENTRIES, Moment, RowList};
use nf_decide::Call;
use nf_deeds::{decide_end, swept};
use nf_grants::Ground;
use nf_opening::{SiteFault, judge};
use nf_state::{State, changes};
use nf_words::{Allowed, Answer, Denial, Entry, Event, Mark, Outcome};
use std::alloc::{AllocError, Global};
use std::marker::Model;

/// Why a Begin finds no room.
#[derive(Clone, Copy, PartialEq, Eq)]
pub enum RoomFault {
    /// The run has no room for two more entries.
    Full,
    /// There is no memory.
    Memory,
}

impl From<AllocError> for RoomFault {
    ghost use Rattle.nf_site.specs.declared.site.RoomFault.TheVariants.{Memory};

    ghost from_gives = { λ _ fault. fault ≡ Memory };

    fn from(_: AllocError) -> Self {
        RoomFault::Memory
    }
}

/// The site: the rows that it was opened with, its state, and the history that led there.
#[derive(Drop)]
pub struct Site {
    opening: RowList,
    current: State,
    history: Vec<Entry>,
}

impl Model for Site {
    ghost use Rattle.nf_site.specs.Held.{Held};

    ghost Value = { Held };

    ghost use Rattle.nf_site.specs.View.{held_of, IsHeld};

    ghost view = { held_of };

    ghost invariant = { IsHeld };
}

impl Site {
    /// A site over rows that were stored.
    pub fn build(alloc: Global, opening: RowList) -> Result<Site, SiteFault>
        ensures { IsBuilt opening result }
    {
        let loaded = judge(alloc, opening.rows())?;
        let current = State::open(alloc, loaded)?;
        Ok(Site {
            opening,
            current,
            history: Vec::new(alloc),
        })
    }

    /// Makes room for a Begin and for its End.
    pub fn room(&mut self) -> Result<(), RoomFault>
        ensures full { (result ≡ Err Full) ↔ (MAX_ENTRIES < entries_wanted self.old.kept) }
        ensures ok { OnOk result (HasRoom self.new) }
        ensures same { self.new.kept ≡ self.old.kept }
    {
        let ends = self.current.tickets().len();
        if self.history.len() + ends + 2 > MAX_ENTRIES {
            return Err(RoomFault::Full);
        }
        self.history.reserve(ends + 2)?;
        self.current.reserve_ticket()?;
        Ok(())
    }

    /// The step that a seat's event would be, at a clock's reading. It makes room for the rows that the step adds.
    pub fn plan(
        &mut self,
        alloc: Global,
        seat: u64,
        now: Moment,
        event: Event,
    ) -> Result<Plan, AllocError>
        requires asked { MayAsk self.old.kept.state seat event }
        requires room { HasEntryRoom self.old event }
        ensures planned { IfOk result (λ plan. plan ≡ plan_of self.old.kept.state seat now event) }
        ensures ready { IfOk result (IsReady self.new) }
        ensures ends { IsPlannedAtEnd event result }
        ensures same { self.new.kept ≡ self.old.kept }
    {
        let moment = self.moment(now);
        match &event {
            Event::End(Outcome::Sent | Outcome::Gone) => {
                self.current.keeps_room();
                return Ok(Plan::closing(alloc, seat, moment, event));
            }
            Event::End(Outcome::Body { .. }) | Event::Begin { .. } | Event::Sweep => {}
        }
        let plan = self.plan_step(alloc, seat, moment, event)?;
        let added = plan.added(&self.current.view());
        self.current.reserve(added)?;
        Ok(plan)
    }

    // The step of an event at a moment.
    fn plan_step(
        &self,
        alloc: Global,
        seat: u64,
        moment: Moment,
        event: Event,
    ) -> Result<Plan, AllocError>
        requires asked { MayAsk self.now.kept.state seat event }
        requires late { self.now.kept.state.seen ≤ moment }
        ensures { IfOk result (λ plan. plan ≡ plan_at self.entry.now.kept.state seat moment event) }
    {
        let (decided, changes) = self.decided(alloc, seat, moment, &event)?;
        Ok(Plan::new(seat, moment, event, decided, changes))
    }

    // What is decided of an event, and the changes that this makes.
    fn decided(
        &self,
        alloc: Global,
        seat: u64,
        moment: Moment,
        event: &Event,
    ) -> Result<(Result<Deed, Denial>, Changes), AllocError>
        requires asked { MayAsk self.now.kept.state seat event.now }
        requires late { self.now.kept.state.seen ≤ moment }
        ensures decision { IfOk result (λ made. decision_in made.0 ≡ decision_of self.now.kept.state seat moment event.now) }
        ensures changes { IfOk result (λ made. made.1 ≡ changes_to self.now.kept.state seat moment event.now) }
    {
        match self.decide(alloc, seat, moment, event)? {
            Ok(act) => {
                let changes = changes(alloc, &self.current.view(), moment, &act)?;
                Ok((Ok(Deed::new(alloc, act)?), changes))
            }
            Err(refusal) => Ok((Err(refusal), Changes::new(alloc))),
        }
    }

    /// The moment of a step at a clock's reading.
    fn moment(&self, now: Moment) -> Moment
        ensures { result ≡ moment_of self.now.kept.state now }
    {
        Moment::new(self.current.seen().seconds().max(now.seconds()))
    }

    fn decide(
        &self,
        alloc: Global,
        seat: u64,
        moment: Moment,
        event: &Event,
    ) -> Result<Result<Allowed, Denial>, AllocError>
        requires asked { MayAsk self.now.kept.state seat event.now }
        requires late { self.now.kept.state.seen ≤ moment }
        ensures { IfOk result (λ decision. decision ≡ decision_of self.entry.now.kept.state seat moment event.now) }
    {
        match event {
            Event::Begin { words, request } => Call {
                view: self.current.view(),
                seat,
                now: moment,
                words: *words,
                request,
            }
            .decide(alloc),
            Event::End(outcome) => self.decide_end(alloc, seat, moment, outcome),
            Event::Sweep => Ok(Ok(swept(alloc, &self.current.view(), moment)?)),
        }
    }

    fn decide_end(
        &self,
        alloc: Global,
        seat: u64,
        moment: Moment,
        outcome: &Outcome,
    ) -> Result<Result<Allowed, Denial>, AllocError>
        requires asked { MayAsk self.now.kept.state seat (End outcome.now) }
        requires late { self.now.kept.state.seen ≤ moment }
        ensures { IfOk result (λ decision. decision ≡ end_decision (access_of self.entry.now.kept.state) self.entry.now.kept.state seat moment outcome.now) }
    {
        match self.current.ticket(seat) {
            Some(ticket) => decide_end(alloc, &self.current.view(), moment, &ticket.goal, outcome),
            None => Ok(Ok(Allowed::Close)),
        }
    }

    /// Makes the planned step. It needs no memory.
    #[tactic(auto, using(crate::proofs::Steps::entry_fits))]
    pub fn adopt(&mut self, plan: Plan) -> Answer
        requires { IsReady self.old plan }
        ensures answer { result ≡ answer_to self.old.kept.state plan.seat plan.moment plan.event }
        ensures kept { self.new.kept ≡ stepped self.old.kept plan.seat plan.moment plan.event }
    {
        let Plan {
            seat,
            moment,
            event,
            decided,
            changes: _,
        } = plan;
        let answer = match decided {
            Ok(Deed { act, reply, hold }) => {
                let (act, reply) = parted(act, reply);
                self.current.change(seat, moment, &event, act, hold);
                Ok(reply)
            }
            Err(refusal) => {
                self.current.pass(seat, moment, &event);
                Err(refusal)
            }
        };
        self.history.push_reserved(Entry {
            seat,
            moment,
            event,
            mark: Mark::Answered,
        });
        answer
    }

    /// Records a step whose store failed, or an End with a body that found no memory. No row changes, and an End frees its ticket.
    /// It takes no memory.
    pub fn fail(&mut self, seat: u64, now: Moment, event: Event, mark: Mark)
        requires asked { MayAsk self.old.kept.state seat event }
        requires failed { mark ≢ Answered }
        requires marked { MayBear self.old.kept.state (entry seat (moment_of self.old.kept.state now) event mark) mark }
        requires room { HasEntryRoom self.old event }
        ensures { self.new.kept ≡ entered self.old.kept (entry seat (moment_of self.old.kept.state now) event mark) }
    {
        let moment = self.moment(now);
        self.current.pass(seat, moment, &event);
        self.history.push_reserved(Entry {
            seat,
            moment,
            event,
            mark,
        });
    }

    /// The rows that the site was opened with.
    pub fn opening(&self) -> &RowList
        ensures { result.now ≡ self.now.kept.opening }
    {
        &self.opening
    }

    /// The rows as they are now, by rising kind and key.
    pub fn rows(&self, alloc: Global) -> Result<RowList, AllocError>
        ensures { IfOk result (λ rows. rows ≡ rows_of self.now.kept.state.tables) }
    {
        self.current.rows(alloc)
    }

    /// How many uploads there are.
    pub fn uploads(&self) -> usize
        ensures { result ≡ length self.now.kept.state.tables.uploads }
    {
        self.current.view().uploads.count()
    }

    /// How many items the trashes hold.
    pub fn items(&self) -> usize
        ensures { result ≡ length self.now.kept.state.tables.items }
    {
        self.current.view().items.count()
    }

    /// What users' files, trash and versions take up, and how many grants they have.
    pub fn totals(&self, alloc: Global) -> Result<Totals, AllocError>
        ensures users { IfOk result (λ totals. totals.users.items ≡ all_totals self.now.kept.state.tables) }
        ensures grants { IfOk result (λ totals. totals.grants ≡ all_grants self.now.kept.state.tables) }
    {
        let list = self.current.rows(alloc)?;
        let rows = list.rows();
        let view = self.current.view();
        let versions = view.versions.rows();
        let base = Ground::new(view.people, view.tree, view.shares);
        totals_in(alloc, view.tree, versions, &base, rows)
    }

    /// The numbers of the blobs that a row or a granted GET names. One that is named twice comes twice.
    pub fn named(&self, alloc: Global) -> Result<Vec<BlobId>, AllocError>
        ensures blobs { IfOk result (λ blobs. blobs.items ≡ blobs_named self.now.kept.state) }
        ensures named { (id : ℕ) → Contains (blobs_named self.now.kept.state) id ↔ NamesBlob self.now.kept.state id }
    {
        let view = self.current.view();
        let mut blobs = Vec::new(alloc);
        // Rows of the other kinds name none.
        name_nodes(&mut blobs, view.tree.nodes())?;
        name_versions(&mut blobs, view.versions.rows())?;
        name_chunks(&mut blobs, view.uploads.chunks())?;
        name_tickets(&mut blobs, view.tickets)?;
        Ok(blobs)
    }

    pub fn history(&self) -> &[Entry]
        ensures entries { result.now ≡ self.now.kept.history }
        ensures legal { IsHistory self.now.kept }
        ensures sound { IsSound self.now.kept.state }
        ensures ruled { AreRuled self.now.kept.state.tables }
    {
        &self.history
    }
}
