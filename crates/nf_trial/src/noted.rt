//! A backend of which it is noted whether the store failed.

ghost use Rattle.std.specs.Prelude.{◌≡◌, ◌||◌, true, false};
ghost use Rattle.nf_session.specs.Laws.{is_failed as failed};
ghost use Rattle.nf_trial.specs.Noted.{is_lost as lost};
ghost use Rattle.nf_trial.specs.Trials.{Risen};

use nf_base::{Content, Moment};
use nf_session::{Backend, Ending, PieceFault};
use nf_words::{Answer, Denial, Request, Words};
use std::marker::Model;
use std::snapshot::Snapshot;

/// A backend, as it was at first, and whether the store failed since.
#[derive(Drop)]
pub(crate) struct Noted<B: Backend + Drop> {
    backend: B,
    start: Snapshot<B>,
    has_failed: bool,
}

impl<B: Backend + Drop> Model for Noted<B> {
    ghost use Rattle.nf_trial.specs.Noted.{IsNoted, Watched};

    ghost Value = { Watched B };

    ghost view = { λ noted. record { backend = noted.backend; start = noted.start; has_failed = noted.has_failed } };

    ghost invariant = { λ noted. IsNoted B.Backend record { backend = noted.backend; start = noted.start; has_failed = noted.has_failed } };
}

impl<B: Backend + Drop> Noted<B> {
    pub(crate) fn new(backend: B) -> Self
        ensures backend { result.backend ≡ backend }
        ensures start { result.start.value ≡ backend }
        ensures unfailed { result.has_failed ≡ false }
    {
        let start = Snapshot::of(&backend);
        Noted {
            backend,
            start,
            has_failed: false,
        }
    }

    /// Whether the store failed since then: it counted that.
    pub(crate) fn has_failed(&self) -> bool
        ensures is { result ≡ self.now.has_failed }
        ensures risen { result ≡ true → Risen (B.book self.now.start.value).strikes (B.book self.now.backend).strikes }
    {
        self.has_failed
    }

    pub(crate) fn into_inner(self) -> B
        ensures { result ≡ self.backend }
    {
        let Noted {
            backend,
            start: _,
            has_failed: _,
        } = self;
        backend
    }
}

impl<B: Backend + Drop> Backend for Noted<B> {
    type Lent = (B::Lent, Snapshot<B>);

    ghost lent = { λ noted. (B.lent noted.backend, noted.start) };

    ghost book = { λ noted. B.book noted.backend };

    fn begin(&mut self, now: Moment, words: Words, request: Request) -> Answer {
        let answer = self.backend.begin(now, words, request);
        self.has_failed = with_answer(self.has_failed, &answer);
        answer
    }

    fn blob(&mut self, content: &Content, index: usize) -> Result<Vec<u8>, PieceFault> {
        let bytes = self.backend.blob(content, index);
        self.has_failed = with_piece(self.has_failed, &bytes);
        bytes
    }

    fn end(&mut self, now: Moment, ending: Ending) -> Answer {
        let answer = self.backend.end(now, ending);
        self.has_failed = with_answer(self.has_failed, &answer);
        answer
    }
}

// Whether the store failed before, or at what was answered.
fn with_answer(has_failed: bool, answer: &Answer) -> bool
    ensures { result ≡ (has_failed || failed answer.now) }
{
    has_failed || matches!(answer, Err(Denial::Store))
}

// Whether it did before, or at a piece.
fn with_piece(has_failed: bool, bytes: &Result<Vec<u8>, PieceFault>) -> bool
    ensures { result ≡ (has_failed || lost bytes.now) }
{
    has_failed || matches!(bytes, Err(PieceFault::Store))
}
