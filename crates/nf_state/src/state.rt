//! The state of the site, and the changes that steps make to it.

ghost use Rattle.std.specs.Prelude.{◌≡◌, ◌+◌, ◌≤◌, ◌==◌, not, filter, vec_capacity, length, [], ◌∷◌, ◌++◌, find, IfOk, OnOk, Ok, option_copied};
ghost use Rattle.nf_base.specs.declared.limits.TheConstants.{MAX_NODES};
ghost use Rattle.nf_defs.specs.Tables.{rows_of};
ghost use Rattle.nf_words.specs.Changes.{applied};
ghost use Rattle.nf_words.specs.Prelude.{failed, hold_of, stepped_by, ticket_for, ticket_of};
ghost use Rattle.nf_state.specs.Current.{AreGiven, BearsAct, FitsAct, FitsTicket};
ghost use Rattle.nf_rules.specs.Ruled.{AreRuled};
ghost use Rattle.nf_state.specs.Counts.{FitsRows, only_nodes};

use crate::counts::RowCounts;
use crate::tables::Tables;
use nf_base::{Moment, RowList};
use nf_opening::Loaded;
use nf_view::View;
use nf_words::{Allowed, Event, Goal, Hold, Ticket};
use std::alloc::{AllocError, Global};
use std::marker::Model;

/// The rows, the tickets in the order in which they were granted, and the greatest moment seen.
#[derive(Drop)]
pub struct State {
    tables: Tables,
    tickets: Vec<Ticket>,
    seen: Moment,
}

impl Model for State {
    ghost use Rattle.std.specs.Prelude.{vec_capacity};
    ghost use Rattle.nf_state.specs.Current.{Current};

    ghost Value = { Current };

    ghost view = { λ s. record {
      state = record { tables = s.tables.tables; tickets = s.tickets.items; seen = s.seen };
      room = record { tickets = vec_capacity s.tickets; rows = s.tables.room };
    } };
}

impl State {
    /// The state of rows that were loaded, before any step.
    pub fn open(alloc: Global, loaded: Loaded) -> Result<Self, AllocError>
        requires { AreRuled loaded }
        ensures { IfOk result (λ current. current.state ≡ record { tables = loaded; tickets = []; seen = loaded.meta.last }) }
    {
        let tables = Tables::of(alloc, loaded)?;
        let seen = tables.meta().last;
        Ok(State {
            tables,
            tickets: Vec::new(alloc),
            seen,
        })
    }

    /// All rows, by rising kind and key.
    pub fn rows(&self, alloc: Global) -> Result<RowList, AllocError>
        ensures { IfOk result (λ list. list ≡ rows_of self.now.state.tables) }
    {
        self.tables.rows(alloc)
    }

    /// What a decision reads of it.
    pub fn view(&self) -> View<'_>
        ensures { result ≡ self.now.state }
    {
        self.tables.view(&self.tickets, self.seen)
    }

    pub fn tickets(&self) -> &[Ticket]
        ensures { result.now ≡ self.now.state.tickets }
    {
        &self.tickets
    }

    pub fn seen(&self) -> Moment
        ensures { result ≡ self.now.state.seen }
    {
        self.seen
    }

    /// The ticket of a seat.
    pub fn ticket(&self, seat: u64) -> Option<&Ticket>
        ensures { option_copied result ≡ ticket_of self.now.state seat }
    {
        ticket_of(&self.tickets, seat)
    }

    /// Makes room for one ticket more.
    pub fn reserve_ticket(&mut self) -> Result<(), AllocError>
        ensures ticket { OnOk result (FitsTicket self.new.state self.new.room) }
        ensures rows { self.new.room.rows ≡ self.old.room.rows }
        ensures same { self.new.state ≡ self.old.state }
    {
        self.tickets.reserve(1)
    }

    /// Makes room for so many rows more.
    pub fn reserve(&mut self, added: RowCounts) -> Result<(), AllocError>
        requires few { length self.old.state.tables.nodes + added.nodes ≤ MAX_NODES }
        ensures rows { OnOk result (FitsRows self.new.state.tables self.new.room.rows added) }
        ensures tickets { self.new.room.tickets ≡ self.old.room.tickets }
        ensures same { self.new.state ≡ self.old.state }
    {
        self.tables.reserve(added)
    }

    /// Tells callers that the rows fit; it does nothing.
    pub fn keeps_room(&self)
        ensures { FitsRows self.now.state.tables self.now.room.rows (only_nodes 0) }
    {
        self.tables.keeps_room();
    }

    /// Makes the step of a seat's event that no rule refuses. It needs no memory.
    pub fn change(
        &mut self,
        seat: u64,
        moment: Moment,
        event: &Event,
        act: Allowed,
        hold: Option<Hold>,
    )
        requires hold { hold ≡ hold_of act }
        requires fits { FitsAct self.old.state self.old.room act }
        requires bears { BearsAct self.old.state.tables act }
        requires given { AreGiven self.old.state.tables }
        ensures { self.new.state ≡ stepped_by self.old.state seat moment event.now (Ok act) }
    {
        self.leave(seat, moment, event);
        self.apply(seat, moment, act, hold);
    }

    fn apply(&mut self, seat: u64, moment: Moment, act: Allowed, hold: Option<Hold>)
        requires hold { hold ≡ hold_of act }
        requires fits { FitsAct self.old.state self.old.room act }
        requires bears { BearsAct self.old.state.tables act }
        requires given { AreGiven self.old.state.tables }
        ensures { self.new.state ≡ applied self.old.state seat moment act }
    {
        if let Some(goal) = self.tables.alter(moment, act) {
            self.grant(seat, goal, hold);
        }
    }

    fn grant(&mut self, seat: u64, goal: Goal, hold: Option<Hold>)
        requires { FitsTicket self.old.state self.old.room }
        ensures { self.new.state ≡ record self.old.state { tickets = self.old.state.tickets ++ ticket_for seat goal hold ∷ [] } }
    {
        self.tickets.push_reserved(Ticket::new(seat, goal, hold));
    }

    /// Makes the step of a seat's event that changes no row: it was refused, or its store failed, or it found no memory.
    pub fn pass(&mut self, seat: u64, moment: Moment, event: &Event)
        ensures { self.new.state ≡ failed self.old.state seat moment event.now }
    {
        self.leave(seat, moment, event);
    }

    /// Takes from the state what a seat's event takes, whatever it answers.
    fn leave(&mut self, seat: u64, moment: Moment, event: &Event)
        ensures state { self.new.state ≡ failed self.old.state seat moment event.now }
        ensures tables { self.new.state.tables ≡ self.old.state.tables }
        ensures fewer { length self.new.state.tickets ≤ length self.old.state.tickets }
        ensures room { self.new.room ≡ self.old.room }
    {
        self.seen = moment;
        match event {
            Event::Begin { .. } | Event::Sweep => {}
            Event::End(_) => free(&mut self.tickets, seat),
        }
    }
}

fn ticket_of(tickets: &[Ticket], seat: u64) -> Option<&Ticket>
    ensures { option_copied result ≡ find (λ ticket. ticket.seat == seat) tickets.now }
{
    tickets.iter().find(|ticket| ticket.seat == seat)
}

fn free(tickets: &mut Vec<Ticket>, seat: u64)
    ensures items { tickets.new.items ≡ filter (λ ticket. not (ticket.seat == seat)) tickets.old.items }
    ensures fewer { length tickets.new.items ≤ length tickets.old.items }
    ensures capacity { vec_capacity tickets.new ≡ vec_capacity tickets.old }
{
    tickets.retain(|ticket| ticket.seat != seat)
}
