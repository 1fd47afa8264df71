//! A seat: what a thread takes its turns with.
ghost use Rattle.std.specs.Prelude.{◌≡◌, length};
ghost use Rattle.nf_turn.specs.Numbers.{AreSound};
ghost use Rattle.nf_turn.specs.Views.{numbers_in};

use crate::view::View;

/// The table's seat.
pub(crate) type Place<W> = atomic_table::Seat<Option<W>, View<W>>;

/// A seat of a lock. Contracts see it by its `numbers`, and by `memory`, what its holder knows.
#[derive(Drop)]
pub struct Seat<W> {
    pub(crate) place: Place<W>,
    pub(crate) seats: usize,
    pub(crate) number: u64,
    pub(crate) next: u64,
    pub(crate) left: usize,
    pub(crate) joined: usize,
    ghost seats_is: { seats ≡ (numbers_in place.me).seats },
    ghost number_is: { number ≡ (numbers_in place.me).number },
    ghost next_is: { next ≡ (numbers_in place.me).next },
    ghost left_is: { left ≡ (numbers_in place.me).left },
    ghost joined_is: { joined ≡ length (numbers_in place.me).joined },
    pub ghost sound: { ∥ AreSound (numbers_in place.me) ∥₁ },
}

impl<W> Seat<W> {
    ghost use Rattle.std.specs.Prelude.{◌↔◌, IsTrue};
    ghost use Rattle.nf_turn.specs.Numbers.{IsWhole};
    ghost use Rattle.nf_turn.specs.Seats.{numbers};

    pub fn number(&self) -> u64
        ensures { result ≡ (numbers self.now).number }
    {
        self.number
    }

    /// How many numbers it has left to give.
    pub fn left(&self) -> usize
        ensures { result ≡ (numbers self.now).left }
    {
        self.left
    }

    /// Whether each number of the lock is the seat's own, is left with it, or was that of a seat joined into it.
    pub fn whole(&self) -> bool
        ensures { IsTrue result ↔ IsWhole (numbers self.now) }
    {
        1 + self.left as u128 + self.joined as u128 == self.seats as u128
    }
}
