//! What a session is served from.

ghost use Rattle.std.specs.Prelude.{◌≡◌, ◌<◌, Some, None, length};
ghost use Rattle.nf_words.specs.History.{MayWant};
ghost use Rattle.nf_words.specs.declared.answer.Goal.TheVariants.{Serve};
ghost use Rattle.nf_session.specs.Book.{Book, Begins, Ends, GivesPiece, MayEnd, denial_of_piece, held};

use nf_base::{Content, Moment};
use nf_words::{Answer, Damage, Denial, Request, Words};

/// How what was granted ends.
#[derive(Drop)]
pub enum Ending {
    /// The content was sent.
    Sent,
    /// It wasn't, or the body to be stored never came whole.
    Gone,
    /// This body is to be stored.
    Body(Vec<u8>),
}

/// Why a piece isn't given.
#[derive(Clone, Copy, PartialEq, Eq)]
pub enum PieceFault {
    /// The store failed, and counted it.
    Store,
    /// The store has other bytes, or none.
    Damaged(Damage),
    /// There is no memory.
    Memory,
}

impl PieceFault {
    /// What it is answered by, where nothing was written yet.
    pub fn denial(self) -> Denial
        ensures { result ≡ denial_of_piece self }
    {
        match self {
            PieceFault::Store => Denial::Store,
            PieceFault::Damaged(damage) => Denial::Damaged(damage),
            PieceFault::Memory => Denial::Memory,
        }
    }
}

/// The site and the store, as one seat meets them. Other seats may make entries before those of each call.
pub trait Backend {
    /// What it was lent, which no call changes.
    type Lent;

    ghost lent: { Self → Self.Lent };

    /// What the seat knows.
    ghost book: { Self → Book };

    /// Asks for something, at a reading of the clock and with two words of chance.
    fn begin(&mut self, now: Moment, words: Words, request: Request) -> Answer
        requires idle { held (book self.old) ≡ None }
        requires wants { MayWant request }
        ensures begins { Begins (book self.old) (book self.new) now words request result }
        ensures lent { lent self.new ≡ lent self.old };

    /// The bytes of a piece of what was granted.
    fn blob(&mut self, content: &Content, index: usize) -> Result<Vec<u8>, PieceFault>
        requires granted { held (book self.old) ≡ Some (Serve content.now) }
        requires index { index < length content.now }
        ensures gives { GivesPiece (book self.old) (book self.new) content.now index result }
        ensures lent { lent self.new ≡ lent self.old };

    /// Ends what was granted, at a reading of the clock.
    fn end(&mut self, now: Moment, ending: Ending) -> Answer
        requires { MayEnd (held (book self.old)) ending }
        ensures ends { Ends (book self.old) (book self.new) now ending result }
        ensures lent { lent self.new ≡ lent self.old };
}
