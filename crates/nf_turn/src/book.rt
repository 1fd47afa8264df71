//! What a value under the lock is to a proof.
ghost use Rattle.nf_turn.specs.Book.{Meanings};

/// A value with a list of entries, each made by a seat.
pub trait Book {
    type Entry;

    /// What the value was made with, and keeps.
    type Opening;

    // Its entries, each with the number of its seat; a number of strikes for each seat number; its opening; and, where it tells them, the
    // bytes that it stores, the next number that it stores some under, and how often it dropped some.
    ghost book: { Meanings Self.Entry Self.Opening Self };
}
