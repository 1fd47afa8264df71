//! The keeper itself.

ghost use Rattle.std.specs.Prelude.{◌≡◌, ◌≤◌, All, OnOk, None};
ghost use Rattle.nf_outside.specs.Causes.{Rose};
ghost use Rattle.nf_keeper.specs.Keeping.{Counts};
ghost use Rattle.nf_told.specs.Told.{FitsChange};

use nf_base::{BlobId, Changes};
use nf_keeper::{KeepFault, Keeper, NewBlob, RawRows};
use nf_rows::RawRow;
use std::alloc::{AllocError, Global};

/// A call of a keeper.
#[derive(Clone, Copy, PartialEq, Eq)]
pub enum Call {
    Load,
    Apply,
    Blob,
    Sweep,
}

/// What can say in words why it failed last, and what else is to be known of it.
pub trait Explains {
    fn explain(&self, alloc: Global) -> Result<String, AllocError>;

    /// What has come up since this was asked last, if anything.
    fn notice(&mut self) -> Option<&'static str>;
}

/// Who looks at a keeper.
pub trait Watch {
    /// Whether what the keeper writes to is still what it was opened over.
    fn is_there(&self) -> bool;

    /// What it writes to isn't there any more.
    fn is_gone(&mut self);

    /// A call failed, for these reasons where there was memory to say them. A keeper that is dead fails at whatever it is asked.
    fn failed(&mut self, call: Call, why: Option<&str>, is_dead: bool);

    /// These rows were loaded.
    fn loaded(&mut self, rows: &[RawRow]);

    /// This came up in a call, whatever that answered.
    fn noticed(&mut self, notice: &str);

    /// A call did what it was asked.
    fn went_well(&mut self, call: Call);
}

/// A keeper, and who looks at it. It tells nothing, and its calls aren't counted.
#[derive(Drop)]
pub struct WatchedKeeper<K: Keeper + Drop, W: Watch + Drop> {
    inner: K,
    watch: W,
    alloc: Global,
    faults: u64,
}

impl<K: Keeper + Explains + Drop, W: Watch + Drop> WatchedKeeper<K, W> {
    pub fn over(alloc: Global, inner: K, watch: W) -> WatchedKeeper<K, W>
        ensures { result.faults ≡ 0 }
    {
        WatchedKeeper {
            inner,
            watch,
            alloc,
            faults: 0,
        }
    }

    pub fn into_inner(self) -> K
        ensures { result ≡ self.inner }
    {
        let WatchedKeeper {
            inner,
            watch: _,
            alloc: _,
            faults: _,
        } = self;
        inner
    }

    // What a call answered, where a failure is counted and told.
    fn watched<T>(&mut self, call: Call, answer: Result<T, KeepFault>) -> Result<T, KeepFault>
        ensures same { result ≡ answer }
        ensures count { Counts self.old.faults self.new.faults result }
    {
        if let Some(notice) = self.inner.notice() {
            self.watch.noticed(notice);
        }
        match &answer {
            Ok(_) => self.watch.went_well(call),
            Err(KeepFault::Failed) => {
                self.fault();
                self.tell(call);
            }
            Err(KeepFault::Memory) => {}
        }
        answer
    }

    fn fault(&mut self)
        ensures rose { Rose self.old.faults self.new.faults }
        ensures grows { self.old.faults ≤ self.new.faults }
    {
        self.faults = self.faults.saturating_add(1);
    }

    fn tell(&mut self, call: Call)
        ensures { self.new.faults ≡ self.old.faults }
    {
        let why = self.inner.explain(self.alloc);
        let why = match &why {
            Ok(why) => Some(why.as_str()),
            Err(_) => None,
        };
        // A number that no blob has is asked for: a keeper that refuses that, too, refuses everything.
        let is_dead = matches!(
            self.inner.blob(BlobId::new(u64::MAX)),
            Err(KeepFault::Failed)
        );
        self.watch.failed(call, why, is_dead);
    }
}

impl<K: Keeper + Explains + Drop, W: Watch + Drop> Keeper for WatchedKeeper<K, W> {
    ghost told = { λ _. None };

    ghost faults = { λ keeper. keeper.faults };

    ghost calls = { λ _. None };

    fn load(&mut self) -> Result<RawRows, KeepFault> {
        let raws = self.inner.load();
        if let Ok(raws) = &raws {
            self.watch.loaded(raws.rows());
        }
        self.watched(Call::Load, raws)
    }

    fn apply(&mut self, changes: &Changes, blob: Option<&NewBlob<'_>>) -> Result<(), KeepFault> {
        if !self.watch.is_there() {
            self.watch.is_gone();
            self.fault();
            return Err(KeepFault::Failed);
        }
        let kept = self.inner.apply(changes, blob);
        self.watched(Call::Apply, kept)
    }

    fn blob(&mut self, id: BlobId) -> Result<Option<Vec<u8>>, KeepFault> {
        let bytes = self.inner.blob(id);
        self.watched(Call::Blob, bytes)
    }

    fn sweep(&mut self, keep: &[BlobId]) -> Result<(), KeepFault> {
        let swept = self.inner.sweep(keep);
        self.watched(Call::Sweep, swept)
    }
}
