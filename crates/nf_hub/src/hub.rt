//! The hub's calls.

ghost use Rattle.std.specs.Prelude.{◌≡◌, ◌↔◌, ◌<◌, ◌≤◌, length, IfErr, IfOk, IfSome, IfNone, IsNone, OnOk, None, Some, is_some};
ghost use Rattle.sha2.specs.Sha256.{sha256};
ghost use Rattle.nf_base.specs.declared.limits.TheConstants.{MAX_SEATS};
ghost use Rattle.nf_desk.specs.Desk.{meanings};
ghost use Rattle.nf_desk.specs.Opened.{AsksOnce, CountsFault, IsFault, MayBegin};
ghost use Rattle.nf_desk.specs.Stepping.{IsEmpty};
ghost use Rattle.nf_desk.specs.Sweeping.{SweepsSeen, TellsNamed};
ghost use Rattle.nf_hub.specs.Calls.{AsksGoal, AsksPiece, GivesGoal, HasPiece, HasTicket, IsBegan, LeavesKeeper, ShelvesBody, ShelvesEnding, answer_of};
ghost use Rattle.nf_hub.specs.Seats.{IsSeat, Starts, book, memory_of, steady};
ghost use Rattle.nf_hub.specs.Closing.{Closes};
ghost use Rattle.nf_session.specs.Book.{Begins, EndsBody, EndsEmpty, Ends, GivesPiece, MayEnd, granted, held};
ghost use Rattle.nf_turn.specs.Prelude.{having_joined, having_split, IsFresh, IsWhole, longer, numbers, of_the_first, split_from};
ghost use Rattle.nf_words.specs.History.{MayEnd as HeldMayEnd, MayWant};
ghost use Rattle.nf_words.specs.declared.answer.Goal.TheVariants.{Serve};
ghost use Rattle.nf_words.specs.declared.history.Outcome.TheVariants.{Body};

use crate::seat::{Began, Seat, SeatOf, Ticket};
use nf_base::{Content, Digest, Moment};
use nf_desk::{Desk, OpenFault, Opening, Swept, Unopened, piece_at, test_piece};
use nf_keeper::Keeper;
use nf_session::{Ending, PieceFault};
use nf_site::Site;
use nf_turn::{Book, TurnLock};
use nf_words::{Answer, Denial, Goal, Outcome, Reply, Request, Words};
use std::alloc::Global;
use std::sync::Wait;

/// A desk under a lock. It is generic in what is locked and not in the keeper: then threads may share it with no proof by hand.
#[derive(Drop)]
pub struct HubOf<W: Book> {
    pub(crate) lock: TurnLock<W>,
}

/// A hub over such a keeper.
pub type Hub<K> = HubOf<Desk<K>>;

impl<K: Keeper + Drop> Hub<K> {
    /// A hub over a desk that was just opened, and its first seat. The desk comes back for want of memory.
    pub fn over(alloc: Global, desk: Desk<K>, seats: usize) -> Result<(Hub<K>, Seat<K>), Desk<K>>
        requires seats { (0 < seats) × (seats ≤ MAX_SEATS) }
        requires fresh { IsFresh (meanings K.Keeper) desk }
        requires opened { desk.start.value ≡ desk.keeper }
        ensures seat { IfOk result (λ made. IsSeat K.Keeper made.0 made.1) }
        ensures memory { IfOk result (λ made. memory_of K.Keeper made.0 made.1 ≡ of_the_first seats desk) }
        ensures err { IfErr result (λ same. same ≡ desk) }
    {
        let (lock, turns) = TurnLock::new(alloc, desk, seats)?;
        let seat = SeatOf {
            turns,
            is_idle: true,
        };
        Ok((HubOf { lock }, seat))
    }

    /// A hub over the keeper's rows, or over the first ones where it has none, which it then keeps; and its first seat.
    pub fn start(
        alloc: Global,
        keeper: K,
        opening: Opening,
        seats: usize,
    ) -> Result<(Hub<K>, Seat<K>), Unopened<K>>
        requires seats { (0 < seats) × (seats ≤ MAX_SEATS) }
        requires first { MayBegin opening }
        ensures ok { IfOk result (λ made. IsSeat K.Keeper made.0 made.1) }
        ensures starts { IfOk result (λ made. Starts K.Keeper opening keeper seats (memory_of K.Keeper made.0 made.1)) }
        ensures err { IfErr result (λ unopened. IsFault opening (K.told keeper) unopened.fault) }
        // Where there was no memory for the hub, the first rows may be stored.
        ensures same { IfErr result (λ unopened. LeavesKeeper opening (K.told keeper) (K.told unopened.keeper) unopened.fault) }
        ensures counted { IfErr result (λ unopened. CountsFault (K.faults keeper) (K.faults unopened.keeper) unopened.fault) }
        ensures in_vain { IfErr result (λ unopened. AsksOnce (K.told keeper) (K.calls keeper) (K.calls unopened.keeper) (Some unopened.fault)) }
    {
        let desk = Desk::open(alloc, keeper, opening)?;
        match Hub::over(alloc, desk, seats) {
            Ok(made) => Ok(made),
            Err(desk) => {
                let (_, keeper) = desk.into_parts();
                Err(Unopened {
                    fault: OpenFault::Memory,
                    keeper,
                })
            }
        }
    }

    /// The Begin of a request, at a reading of the clock and with two words of chance. What it is granted is ended by `end`.
    pub fn begin<R: Wait>(
        &self,
        rt: &R,
        seat: &mut Seat<K>,
        now: Moment,
        words: Words,
        request: Request,
    ) -> Began
        requires seat { IsSeat K.Keeper self.now seat.old }
        requires idle { held (book K.Keeper self.now seat.old) ≡ None }
        requires wants { MayWant request }
        ensures seat { IsSeat K.Keeper self.now seat.new }
        ensures steady { steady (memory_of K.Keeper self.now seat.new) ≡ steady (memory_of K.Keeper self.now seat.old) }
        ensures begins { Begins (book K.Keeper self.now seat.old) (book K.Keeper self.now seat.new) now words request (answer_of result) }
        ensures began { IsBegan result }
    {
        match self.ask(rt, seat, now, words, request) {
            Ok(Reply::Granted(goal)) => Began::Granted(Ticket { goal }),
            Ok(reply) => Began::Done(reply),
            Err(refusal) => Began::Refused(refusal),
        }
    }

    /// Has go what the trashes don't hold any more, at a reading of the clock, and then the blobs that no row and no granted GET names,
    /// in one turn. Where the store doesn't drop them, the step stands as it was answered.
    pub fn sweep<R: Wait>(&self, rt: &R, seat: &mut Seat<K>, now: Moment) -> Result<Swept, Denial>
        requires seat { IsSeat K.Keeper self.now seat.old }
        requires idle { held (book K.Keeper self.now seat.old) ≡ None }
        ensures seat { IsSeat K.Keeper self.now seat.new }
        ensures idle { held (book K.Keeper self.now seat.new) ≡ None }
        ensures steady { steady (memory_of K.Keeper self.now seat.new) ≡ steady (memory_of K.Keeper self.now seat.old) }
        ensures sweeps { SweepsSeen (book K.Keeper self.now seat.old) (book K.Keeper self.now seat.new) now result }
        ensures named { OnOk result (TellsNamed (book K.Keeper self.now seat.new)) }
    {
        let number = seat.turns.number();
        let mut desk = self.lock.take(rt, &mut seat.turns);
        let result = desk.sweep(number, now);
        self.lock.give(&mut seat.turns, desk);
        result
    }

    /// The bytes of a piece of a content that the ticket's seat is to be sent, tested by its length and digest.
    pub fn blob<R: Wait>(
        &self,
        rt: &R,
        seat: &mut Seat<K>,
        ticket: &Ticket,
        index: usize,
    ) -> Result<Vec<u8>, PieceFault>
        requires seat { IsSeat K.Keeper self.now seat.old }
        requires granted { held (book K.Keeper self.now seat.old) ≡ Some ticket.now.goal }
        requires piece { HasPiece ticket.now.goal index }
        ensures seat { IsSeat K.Keeper self.now seat.new }
        ensures steady { steady (memory_of K.Keeper self.now seat.new) ≡ steady (memory_of K.Keeper self.now seat.old) }
        ensures ticket { HasTicket (book K.Keeper self.now seat.new) ticket.now.goal }
        ensures gives { GivesGoal (book K.Keeper self.now seat.old) (book K.Keeper self.now seat.new) ticket.now.goal index result }
        ensures asks { AsksGoal K.Keeper (memory_of K.Keeper self.now seat.old) (memory_of K.Keeper self.now seat.new) ticket.now.goal index result }
    {
        match &ticket.goal {
            Goal::Serve(content) => self.piece(rt, seat, content, index),
            Goal::Store { .. } | Goal::Chunk { .. } => unreachable!(),
        }
    }

    /// Ends what was granted, at a reading of the clock. `Sent` and `Gone` take no memory.
    pub fn end<R: Wait>(
        &self,
        rt: &R,
        seat: &mut Seat<K>,
        ticket: Ticket,
        now: Moment,
        ending: Ending,
    ) -> Answer
        requires seat { IsSeat K.Keeper self.now seat.old }
        requires granted { held (book K.Keeper self.now seat.old) ≡ Some ticket.goal }
        requires may { MayEnd (Some ticket.goal) ending }
        ensures seat { IsSeat K.Keeper self.now seat.new }
        ensures idle { held (book K.Keeper self.now seat.new) ≡ None }
        ensures steady { steady (memory_of K.Keeper self.now seat.new) ≡ steady (memory_of K.Keeper self.now seat.old) }
        ensures ends { Ends (book K.Keeper self.now seat.old) (book K.Keeper self.now seat.new) now ending result }
        ensures shelved { ShelvesEnding K.Keeper (memory_of K.Keeper self.now seat.old) (memory_of K.Keeper self.now seat.new) ending result }
    {
        let Ticket { goal } = ticket;
        drop(goal);
        self.finish(rt, seat, now, ending)
    }

    /// Splits off a seat with the first number that is left.
    pub fn split(&self, seat: &mut Seat<K>) -> Option<Seat<K>>
        requires seat { IsSeat K.Keeper self.now seat.old }
        requires idle { held (book K.Keeper self.now seat.old) ≡ None }
        ensures seat { IsSeat K.Keeper self.now seat.new }
        ensures idle { held (book K.Keeper self.now seat.new) ≡ None }
        ensures none { IsNone result ↔ ((numbers seat.old.turns).left ≡ 0) }
        ensures unchanged { IfNone result (seat.new ≡ seat.old) }
        ensures new { IfSome result (λ new. IsSeat K.Keeper self.now new × (held (book K.Keeper self.now new) ≡ None)) }
        ensures memory { IfSome result (λ new. memory_of K.Keeper self.now new ≡ split_from (memory_of K.Keeper self.now seat.old)) }
        ensures kept { IfSome result (λ _. memory_of K.Keeper self.now seat.new ≡ having_split (memory_of K.Keeper self.now seat.old)) }
    {
        let turns = self.lock.split(&mut seat.turns)?;
        Some(SeatOf {
            turns,
            is_idle: true,
        })
    }

    /// Takes another seat in, with the numbers that it has left.
    pub fn join(&self, seat: &mut Seat<K>, other: Seat<K>)
        requires seat { IsSeat K.Keeper self.now seat.old × IsSeat K.Keeper self.now other }
        requires idle { (held (book K.Keeper self.now seat.old) ≡ None) × (held (book K.Keeper self.now other) ≡ None) }
        ensures seat { IsSeat K.Keeper self.now seat.new }
        ensures idle { held (book K.Keeper self.now seat.new) ≡ None }
        ensures memory { memory_of K.Keeper self.now seat.new
            ≡ having_joined (longer (meanings K.Keeper)) (memory_of K.Keeper self.now seat.old) (memory_of K.Keeper self.now other) }
    {
        let SeatOf { turns, is_idle: _ } = other;
        self.lock.join(&mut seat.turns, turns);
    }

    /// Ends the hub, and gives its site, with its history, and its keeper.
    pub fn close(self, seat: Seat<K>) -> (Site, K)
        requires seat { IsSeat K.Keeper self seat }
        requires idle { held (book K.Keeper self seat) ≡ None }
        // No other seat is out.
        requires whole { IsWhole (numbers seat.turns) }
        ensures closes { Closes K.Keeper (memory_of K.Keeper self seat) result.0 result.1 }
    {
        let HubOf { lock } = self;
        let SeatOf { turns, is_idle: _ } = seat;
        lock.close(turns).into_parts()
    }

    /// The Begin of a request, in one turn.
    pub(crate) fn ask<R: Wait>(
        &self,
        rt: &R,
        seat: &mut Seat<K>,
        now: Moment,
        words: Words,
        request: Request,
    ) -> Answer
        requires seat { IsSeat K.Keeper self.now seat.old }
        requires idle { held (book K.Keeper self.now seat.old) ≡ None }
        requires wants { MayWant request }
        ensures seat { IsSeat K.Keeper self.now seat.new }
        ensures steady { steady (memory_of K.Keeper self.now seat.new) ≡ steady (memory_of K.Keeper self.now seat.old) }
        ensures begins { Begins (book K.Keeper self.now seat.old) (book K.Keeper self.now seat.new) now words request result }
    {
        let number = seat.turns.number();
        let mut desk = self.lock.take(rt, &mut seat.turns);
        let answer = desk.begin(number, now, words, request);
        self.lock.give(&mut seat.turns, desk);
        seat.is_idle = !grants(&answer);
        answer
    }

    /// A piece of what the seat was granted. It is read in one turn, and tested after it.
    pub(crate) fn piece<R: Wait>(
        &self,
        rt: &R,
        seat: &mut Seat<K>,
        content: &Content,
        index: usize,
    ) -> Result<Vec<u8>, PieceFault>
        requires seat { IsSeat K.Keeper self.now seat.old }
        requires granted { held (book K.Keeper self.now seat.old) ≡ Some (Serve content.now) }
        requires index { index < length content.now }
        ensures seat { IsSeat K.Keeper self.now seat.new }
        ensures steady { steady (memory_of K.Keeper self.now seat.new) ≡ steady (memory_of K.Keeper self.now seat.old) }
        ensures ticket { HasTicket (book K.Keeper self.now seat.new) (Serve content.now) }
        ensures gives { GivesPiece (book K.Keeper self.now seat.old) (book K.Keeper self.now seat.new) content.now index result }
        ensures asks { AsksPiece K.Keeper (memory_of K.Keeper self.now seat.old) (memory_of K.Keeper self.now seat.new) content.now index result }
    {
        let number = seat.turns.number();
        let mut desk = self.lock.take(rt, &mut seat.turns);
        let read = desk.read(number, content, index);
        self.lock.give(&mut seat.turns, desk);
        test_piece(piece_at(content, index), read)
    }

    /// The End of what was granted, in one turn. A body is digested before it.
    pub(crate) fn finish<R: Wait>(
        &self,
        rt: &R,
        seat: &mut Seat<K>,
        now: Moment,
        ending: Ending,
    ) -> Answer
        requires seat { IsSeat K.Keeper self.now seat.old }
        requires granted { MayEnd (held (book K.Keeper self.now seat.old)) ending }
        ensures seat { IsSeat K.Keeper self.now seat.new }
        ensures idle { held (book K.Keeper self.now seat.new) ≡ None }
        ensures steady { steady (memory_of K.Keeper self.now seat.new) ≡ steady (memory_of K.Keeper self.now seat.old) }
        ensures ends { Ends (book K.Keeper self.now seat.old) (book K.Keeper self.now seat.new) now ending result }
        ensures shelved { ShelvesEnding K.Keeper (memory_of K.Keeper self.now seat.old) (memory_of K.Keeper self.now seat.new) ending result }
    {
        match ending {
            Ending::Sent => self.release(rt, seat, now, Outcome::Sent),
            Ending::Gone => self.release(rt, seat, now, Outcome::Gone),
            Ending::Body(body) => self.store(rt, seat, now, &body),
        }
    }

    fn release<R: Wait>(&self, rt: &R, seat: &mut Seat<K>, now: Moment, outcome: Outcome) -> Answer
        requires seat { IsSeat K.Keeper self.now seat.old }
        requires empty { IsEmpty outcome }
        requires granted { HeldMayEnd (held (book K.Keeper self.now seat.old)) outcome }
        ensures seat { IsSeat K.Keeper self.now seat.new }
        ensures idle { held (book K.Keeper self.now seat.new) ≡ None }
        ensures steady { steady (memory_of K.Keeper self.now seat.new) ≡ steady (memory_of K.Keeper self.now seat.old) }
        ensures ends { EndsEmpty (book K.Keeper self.now seat.old) (book K.Keeper self.now seat.new) now outcome result }
    {
        let number = seat.turns.number();
        let mut desk = self.lock.take(rt, &mut seat.turns);
        let answer = desk.finish(number, now, outcome);
        self.lock.give(&mut seat.turns, desk);
        seat.is_idle = true;
        answer
    }

    fn store<R: Wait>(&self, rt: &R, seat: &mut Seat<K>, now: Moment, body: &[u8]) -> Answer
        requires seat { IsSeat K.Keeper self.now seat.old }
        requires granted { HeldMayEnd (held (book K.Keeper self.now seat.old)) (Body (sha256 body.now) (length body.now)) }
        ensures seat { IsSeat K.Keeper self.now seat.new }
        ensures idle { held (book K.Keeper self.now seat.new) ≡ None }
        ensures steady { steady (memory_of K.Keeper self.now seat.new) ≡ steady (memory_of K.Keeper self.now seat.old) }
        ensures ends { EndsBody (book K.Keeper self.now seat.old) (book K.Keeper self.now seat.new) now body.now result }
        ensures shelved { ShelvesBody K.Keeper (memory_of K.Keeper self.now seat.old) (memory_of K.Keeper self.now seat.new) body.now result }
    {
        let digest = Digest::of(body);
        let number = seat.turns.number();
        let mut desk = self.lock.take(rt, &mut seat.turns);
        let answer = desk.store(number, now, digest, body);
        self.lock.give(&mut seat.turns, desk);
        seat.is_idle = true;
        answer
    }
}

/// Whether it grants what is to be ended.
fn grants(answer: &Answer) -> bool
    ensures { result ≡ is_some (granted answer.now) }
{
    matches!(answer, Ok(Reply::Granted(_)))
}
