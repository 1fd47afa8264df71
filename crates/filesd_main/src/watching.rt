//! The store of a server: its files, which are looked at, and what fails of them is told.

use crate::listening::same;
use filesd::Status;
use nf_base::Row;
use nf_keeper_file::{FileKeeper, Mover, OpenFault, Opened, Paths, open};
use nf_outside::{Clock, RealClock};
use nf_rows::{RawRow, read_raw};
use nf_server::{Cause, Closing};
use nf_watch::{Call, Watch, WatchedKeeper};
use std::fs::{Metadata, metadata};
use std::os::unix::fs::MetadataExt;

/// The seconds of a day.
const DAY: u64 = 86_400;

/// A keeper in a file that is watched.
pub type Store = WatchedKeeper<FileKeeper, StoreWatch>;

/// Who looks at a store: whether its files are those that were opened, and what fails. Where the store refuses everything, the run is
/// to end.
#[derive(Drop)]
pub struct StoreWatch {
    rt: HostRuntime,
    files: [SameFile; 3],
    closing: Closing,
    /// Whether a call went well: a store that never did is no other once it is opened anew.
    was_well: bool,
    /// Whether a fault was told, since when no change was kept.
    is_told: bool,
}

/// A file, by its path and by what it was.
#[derive(Drop)]
struct SameFile {
    path: String,
    device: u64,
    number: u64,
}

impl SameFile {
    fn of(rt: &HostRuntime, path: String) -> Option<SameFile> {
        let found = metadata(rt, path.as_str()).ok()?;
        Some(SameFile {
            path,
            device: found.dev(),
            number: found.ino(),
        })
    }

    fn is_there(&self, rt: &HostRuntime) -> bool {
        match metadata(rt, self.path.as_str()) {
            Ok(found) => self.is(&found),
            Err(_) => false,
        }
    }

    fn is(&self, found: &Metadata) -> bool {
        found.dev() == self.device && found.ino() == self.number
    }
}

impl StoreWatch {
    fn of(rt: &HostRuntime, path: &str, closing: &Closing) -> Option<StoreWatch> {
        let Paths {
            rows,
            log,
            pieces,
            ..
        } = Paths::of(rt, path).ok()?;
        Some(StoreWatch {
            files: [
                SameFile::of(rt, rows)?,
                SameFile::of(rt, log)?,
                SameFile::of(rt, pieces)?,
            ],
            rt: same(rt)?,
            closing: closing.share().ok()?,
            was_well: false,
            is_told: false,
        })
    }
}

impl StoreWatch {
    // How many days the last moment of these rows is ahead of the clock.
    fn days_ahead(&self, rows: &[RawRow]) -> u64 {
        let Some(first) = rows.first() else {
            return 0;
        };
        let now = RealClock::new(&self.rt).now();
        let row = read_raw(self.rt.alloc(), first);
        match &row {
            Ok(Row::Meta(meta)) => meta.last.seconds().saturating_sub(now) / DAY,
            _ => 0,
        }
    }

    fn tell_gone(&self) {
        let path = self.files[0].path.as_str();
        let _ = eprintln!(self.rt;
            "filesd: {path}, its log or its pieces aren't the files any more that were opened"
        );
    }
}

impl Watch for StoreWatch {
    fn is_there(&self) -> bool {
        self.files.iter().all(|file| file.is_there(&self.rt))
    }

    fn is_gone(&mut self) {
        if !self.is_told {
            self.tell_gone();
        }
        self.is_told = true;
        self.closing.tell(Cause::Store);
    }

    fn failed(&mut self, call: Call, why: Option<&str>, is_dead: bool) {
        if !self.is_told {
            let what = word_of(call);
            let why = why.unwrap_or("");
            let _ = eprintln!(self.rt; "filesd: the store {what}: {why}");
        }
        self.is_told = true;
        if is_dead && self.was_well {
            self.closing.tell(Cause::Store);
        }
    }

    fn loaded(&mut self, rows: &[RawRow]) {
        let days = self.days_ahead(rows);
        if days > 0 {
            let _ = eprintln!(self.rt;
                "filesd: the store's last moment is {days} days ahead of the clock, and moments never fall: see docs/ADMIN.md"
            );
        }
    }

    fn noticed(&mut self, notice: &str) {
        let _ = eprintln!(self.rt; "filesd: {notice}");
    }

    fn went_well(&mut self, call: Call) {
        self.was_well = true;
        if call == Call::Apply {
            self.is_told = false;
        }
    }
}

fn word_of(call: Call) -> &'static str {
    match call {
        Call::Load => "gives no rows",
        Call::Apply => "keeps no change",
        Call::Blob => "gives no bytes",
        Call::Sweep => "can't be swept",
    }
}

/// The store at that path, which is made where it is missing, and moved where it is one of before.
pub fn open_store(rt: &HostRuntime, path: &str, closing: &Closing) -> Result<Store, Status> {
    let keeper = open_keeper(rt, path).map_err(|fault| status_of(rt, fault))?;
    match StoreWatch::of(rt, path, closing) {
        Some(watch) => Ok(WatchedKeeper::over(rt.alloc(), keeper, watch)),
        None => Err(Status::StoreFault),
    }
}

fn open_keeper(rt: &HostRuntime, path: &str) -> Result<FileKeeper, OpenFault> {
    match open(rt, path)? {
        Opened::Ready(keeper) => Ok(keeper),
        Opened::Old(mover) => move_over(rt, path, mover),
    }
}

// Copies a store of before, and says how far it is.
fn move_over(rt: &HostRuntime, path: &str, mover: Mover) -> Result<FileKeeper, OpenFault> {
    let mut mover = mover;
    let bodies = mover.bodies();
    let _ = eprintln!(rt;
        "filesd: {path} has the form of an earlier release, and its {bodies} bodies are moved into {path}.pieces. Until that is done it stays as it is"
    );
    for _ in 0..u64::MAX {
        if !mover.step()? {
            break;
        }
        let moved = mover.moved();
        let _ = eprintln!(rt; "filesd: {moved} of {bodies} bodies are moved");
    }
    let keeper = mover.finish(rt)?;
    let _ = eprintln!(rt; "filesd: {path} is moved");
    Ok(keeper)
}

/// The same store again, which isn't made.
pub fn open_again(rt: &HostRuntime, path: &str, closing: &Closing) -> Result<Store, Status> {
    if metadata(rt, path).is_err() {
        let _ = eprintln!(rt; "filesd: {path} isn't there");
        return Err(Status::StoreFault);
    }
    let _ = eprintln!(rt; "filesd: the store is opened anew");
    open_store(rt, path, closing)
}

/// Copies the log back, and closes the files.
pub fn close_store(rt: &HostRuntime, store: Store) {
    // Whatever was answered is in the log already, from which the next opening takes it.
    if let Err(error) = store.into_inner().close() {
        let _ = eprintln!(rt; "filesd: the store's log can't be copied back: {error}");
    }
}

fn status_of(rt: &HostRuntime, fault: OpenFault) -> Status {
    if matches!(fault, OpenFault::Memory) {
        return Status::Memory;
    }
    let _ = eprintln!(rt; "filesd: the store can't be opened: {fault}");
    Status::StoreFault
}
