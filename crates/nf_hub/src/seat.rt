//! Seats and tickets: what a caller holds of a hub.

ghost use Rattle.std.specs.Prelude.{◌≡◌};
ghost use Rattle.nf_turn.specs.Prelude.{IsWhole, numbers};

use nf_desk::Desk;
use nf_turn::Book;
use nf_words::{Denial, Goal, Reply};

/// A seat of a hub, which has at most one ticket. It is generic in what is locked and not in the keeper: then it may be sent to a thread
/// with no proof by hand.
#[derive(Drop)]
pub struct SeatOf<W: Book> {
    pub(crate) turns: nf_turn::Seat<W>,
    pub(crate) is_idle: bool,
}

/// A seat of the hub over such a keeper.
pub type Seat<K> = SeatOf<Desk<K>>;

impl<W: Book> SeatOf<W> {
    ghost use Rattle.std.specs.Prelude.{◌↔◌, IsTrue};

    /// Whether it has no ticket.
    pub fn idle(&self) -> bool
        ensures { result ≡ self.now.is_idle }
    {
        self.is_idle
    }

    /// How many numbers it has left to give.
    pub fn left(&self) -> usize
        ensures { result ≡ (numbers self.now.turns).left }
    {
        self.turns.left()
    }

    /// Whether each number of the hub is the seat's own, is left with it, or was that of a seat joined into it.
    pub fn whole(&self) -> bool
        ensures { IsTrue result ↔ IsWhole (numbers self.now.turns) }
    {
        self.turns.whole()
    }
}

/// What was granted to a seat, until it is ended.
pub struct Ticket {
    pub(crate) goal: Goal,
}

impl Ticket {
    pub fn goal(&self) -> &Goal
        ensures { result.now ≡ self.now.goal }
    {
        &self.goal
    }
}

/// How a request is answered.
pub enum Began {
    /// It was done, and that is its reply.
    Done(Reply),
    /// It takes two steps, of which this is the first.
    Granted(Ticket),
    Refused(Denial),
}
