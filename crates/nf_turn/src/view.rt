//! What the holder of a seat knows, and the rule that keeps it true. No value of `Memory` or `View` is ever made.
use crate::book::Book;
use atomic_table::TableRule;
use std::collections::LinkedList;
use std::snapshot::Snapshot;

/// What the holder of a seat knows.
pub struct Memory<W> {
    /// How many seats the lock has.
    pub seats: usize,
    pub number: u64,
    /// The first number that it has left to give, and how many these are.
    pub next: u64,
    pub left: usize,
    /// The value that the lock was made with.
    pub first: W,
    /// The longest value that it knows of.
    pub known: W,
    /// The value that it passed on last; before that, the first one.
    pub last: W,
    /// The values that it passed on, the last one first.
    pub passed: LinkedList<W>,
    /// Those that the seat that it was split off had passed on or was told of, and at the end the first value.
    pub told: LinkedList<W>,
    /// The seats that were joined into it, each with the value that it passed on last.
    pub joined: LinkedList<(u64, W)>,
    /// The values that it knew of, and those that these seats knew of, when they were joined into it.
    pub heard: LinkedList<W>,
}

/// How a seat stands.
pub enum View<W> {
    /// It was joined into another.
    Spent,
    Idle(Memory<W>),
    /// It drew this turn number.
    Waiting(u64, Memory<W>),
    /// It has the turn, and took this value.
    Holding(W, Memory<W>),
}

/// What the lock was made with.
pub struct Start<W> {
    pub seats: usize,
    pub first: Snapshot<W>,
}

impl<W> Drop for Start<W> {
    fn drop(self) {
        let Start { seats: _, first: _ } = self;
    }
}

/// The rule of the lock's table.
pub struct TurnRule;

impl<W: Book> TableRule<Option<W>, View<W>, Start<W>> for TurnRule {
    ghost use Rattle.nf_turn.specs.Memory.{of_the_first};
    ghost use Rattle.nf_turn.specs.Turns.{IsInTurn};
    ghost use Rattle.nf_turn.specs.declared.view.View.TheVariants.{Idle};

    ghost holds = { λ start. IsInTurn W.book start.seats start.first.value };

    ghost first = { λ start. Idle (of_the_first start.seats start.first.value) };
}
