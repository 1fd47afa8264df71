//! The lock.
ghost use Rattle.std.specs.Prelude.{◌≡◌, ◌≤◌, ◌==◌, if◌then◌else◌};
ghost use Rattle.nf_turn.specs.declared.turns.TheConstants.{WORDS};

use crate::book::Book;
use crate::plays::{Count, JoinIn, SplitOff};
use crate::seat::Seat;
use crate::turns::{Counter, DRAWN, first_words, pass_on, wait_for_turn};
use crate::view::{Start, TurnRule, View};
use atomic_table::{Refused, Table};
use std::alloc::Global;
use std::snapshot::Snapshot;
use std::sync::Wait;

/// A lock round one value, which is taken in turns, in the order in which they were asked for.
#[derive(Drop)]
pub struct TurnLock<W: Book> {
    table: Table<Option<W>, View<W>, Start<W>, TurnRule, Global>,
    ghost sized: { (table.shared.table_id.words ≡ WORDS) × (table.shared.table_id.slots ≡ 1) },
}

impl<W: Book> TurnLock<W> {
    ghost use Rattle.std.specs.Prelude.{◌+◌, ◌<◌, ◌^◌, ◌↔◌, IfOk, IfErr, IfSome, IfNone, IsNone};
    ghost use Rattle.nf_turn.specs.Book.{IsFresh, AddsAlone};
    ghost use Rattle.nf_turn.specs.Memory.{of_the_first, having_passed, having_split, split_from, having_joined, longer};
    ghost use Rattle.nf_turn.specs.Numbers.{IsWhole};
    ghost use Rattle.nf_turn.specs.Agreeing.{Agrees, HasHeard};
    ghost use Rattle.nf_turn.specs.Seats.{numbers, memory, taken, IsIdle, HasTurn, IsSeatOf};

    /// A lock with this many seats, from 1 to 64. The value comes back for want of memory.
    pub fn new(alloc: Global, value: W, seats: usize) -> Result<(TurnLock<W>, Seat<W>), W>
        requires seats { (0 < seats) × (seats ≤ 64) }
        requires fresh { IsFresh W.book value }
        // The first seat has number 1, and all others left to give.
        ensures seat { IfOk result (λ made. IsSeatOf made.0 made.1 × IsIdle made.0 made.1 × (memory made.0 made.1 ≡ of_the_first seats value)) }
        ensures err { IfErr result (λ same. same ≡ value) }
    {
        TurnLock::at_turn(alloc, value, seats, 0)
    }

    /// A lock whose first turn has this number. Turn numbers go on from 0 behind 2^64 - 1, and by this it can be tried.
    pub fn at_turn(
        alloc: Global,
        value: W,
        seats: usize,
        turn: u64,
    ) -> Result<(TurnLock<W>, Seat<W>), W>
        requires seats { (0 < seats) × (seats ≤ 64) }
        requires fresh { IsFresh W.book value }
        ensures seat { IfOk result (λ made. IsSeatOf made.0 made.1 × IsIdle made.0 made.1 × (memory made.0 made.1 ≡ of_the_first seats value)) }
        ensures err { IfErr result (λ same. same ≡ value) }
    {
        let start = Start {
            seats,
            first: Snapshot::of(&value),
        };
        let mut slots = Vec::new(alloc);
        if slots.reserve(1).is_err() {
            slots.destroy_empty();
            return Err(value);
        }
        slots.push_reserved(Some(value));
        match Table::new(alloc, &first_words(turn), slots, &start) {
            Ok((table, place)) => {
                let seat = Seat {
                    place,
                    seats,
                    number: 1,
                    next: 2,
                    left: seats - 1,
                    joined: 0,
                };
                Ok((TurnLock { table }, seat))
            }
            Err(Refused { mut slots }) => {
                let value = slots.pop().unwrap().unwrap();
                slots.destroy_empty();
                Err(value)
            }
        }
    }

    /// Waits for the seat's turn.
    pub fn take<R: Wait>(&self, rt: &R, seat: &mut Seat<W>) -> W
        requires own { IsSeatOf self.now seat.old }
        requires idle { IsIdle self.now seat.old }
        ensures own { IsSeatOf self.now seat.new }
        ensures turn { HasTurn self.now seat.new × (taken self.now seat.new ≡ result) }
        ensures memory { memory self.now seat.new ≡ memory self.now seat.old }
        ensures numbers { numbers seat.new ≡ numbers seat.old }
        ensures value { Agrees W.book (memory self.now seat.old) result }
    {
        wait_for_turn(rt, &self.table.shared, &mut seat.place)
    }

    /// Puts the value back, and passes the turn on. It waits for nobody.
    pub fn give(&self, seat: &mut Seat<W>, value: W)
        requires own { IsSeatOf self.now seat.old }
        requires turn { HasTurn self.now seat.old }
        requires value { AddsAlone W.book (numbers seat.old).number (taken self.now seat.old) value }
        ensures own { IsSeatOf self.now seat.new }
        ensures idle { IsIdle self.now seat.new }
        ensures memory { memory self.now seat.new ≡ having_passed value (memory self.now seat.old) }
        ensures numbers { numbers seat.new ≡ numbers seat.old }
    {
        pass_on(&self.table.shared, &mut seat.place, value)
    }

    /// Splits off a seat with the first number that is left.
    pub fn split(&self, seat: &mut Seat<W>) -> Option<Seat<W>>
        requires own { IsSeatOf self.now seat.old }
        requires idle { IsIdle self.now seat.old }
        ensures own { IsSeatOf self.now seat.new × IsIdle self.now seat.new }
        ensures none { IsNone result ↔ ((numbers seat.old).left ≡ 0) }
        ensures unchanged { IfNone result (seat.new ≡ seat.old) }
        ensures new { IfSome result (λ new. IsSeatOf self.now new × IsIdle self.now new × (memory self.now new ≡ split_from (memory self.now seat.old))) }
        ensures kept { IfSome result (λ _. memory self.now seat.new ≡ having_split (memory self.now seat.old)) }
        ensures told { IfSome result (λ new. HasHeard W.book (memory self.now new)) }
    {
        if seat.left == 0 {
            return None;
        }
        Some(self.split_off(seat))
    }

    fn split_off(&self, seat: &mut Seat<W>) -> Seat<W>
        requires own { IsSeatOf self.now seat.old }
        requires idle { IsIdle self.now seat.old }
        requires left { 0 < (numbers seat.old).left }
        ensures own { IsSeatOf self.now seat.new × IsIdle self.now seat.new × (memory self.now seat.new ≡ having_split (memory self.now seat.old)) }
        ensures new { IsSeatOf self.now result × IsIdle self.now result × (memory self.now result ≡ split_from (memory self.now seat.old)) }
        ensures told { HasHeard W.book (memory self.now result) }
    {
        let shared = &self.table.shared;
        let mut place = shared.split_seat::<SplitOff>(&mut seat.place);
        shared.load::<Count>(&mut place, DRAWN);
        let number = seat.next;
        seat.next += 1;
        seat.left -= 1;
        Seat {
            place,
            seats: seat.seats,
            number,
            next: 0,
            left: 0,
            joined: 0,
        }
    }

    /// Takes another seat in, with the numbers that it has left.
    pub fn join(&self, seat: &mut Seat<W>, other: Seat<W>)
        requires own { IsSeatOf self.now seat.old × IsSeatOf self.now other }
        requires idle { IsIdle self.now seat.old × IsIdle self.now other }
        ensures own { IsSeatOf self.now seat.new × IsIdle self.now seat.new }
        ensures memory { memory self.now seat.new ≡ having_joined (longer W.book) (memory self.now seat.old) (memory self.now other) }
        ensures told { HasHeard W.book (memory self.now seat.new) }
    {
        let Seat {
            place,
            seats: _,
            number: _,
            next,
            left,
            joined,
        } = other;
        let shared = &self.table.shared;
        shared.join_seat::<JoinIn>(&mut seat.place, place);
        shared.load::<Count>(&mut seat.place, DRAWN);
        seat.next = next_of(seat.left, seat.next, next);
        seat.left += left;
        seat.joined += joined + 1;
    }

    /// Ends the lock, and gives its value.
    pub fn close(self, seat: Seat<W>) -> W
        requires own { IsSeatOf self seat }
        requires idle { IsIdle self seat }
        // No other seat is out.
        requires whole { IsWhole (numbers seat) }
        ensures value { Agrees W.book (memory self seat) result }
    {
        let TurnLock { table } = self;
        let Seat {
            place,
            seats: _,
            number: _,
            next: _,
            left: _,
            joined: _,
        } = seat;
        let mut closed = table.close_with(place);
        let value = closed.take(0);
        closed.free();
        value.unwrap()
    }
}

// Where one of two seats has numbers left, the first of these.
fn next_of(left: usize, mine: u64, theirs: u64) -> u64
    ensures { result ≡ if left == 0 then theirs else mine }
{
    if left == 0 { theirs } else { mine }
}
