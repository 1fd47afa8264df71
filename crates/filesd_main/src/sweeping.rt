//! The sweep of a server's store, once in so many hours, between two runs.

use crate::listening::same;
use nf_base::Row;
use nf_outside::{Clock, RealClock};
use nf_server::{Cause, Closing};
use nf_site::Site;
use std::alloc::Global;
use std::fs::metadata;
use std::os::unix::fs::MetadataExt;
use std::sync::Arc;
use std::sync::atomic::{AtomicBool, AtomicU64, Ordering};
use std::time::Instant;

/// The seconds of an hour and of a day.
const HOUR: u64 = 3_600;

const DAY: u64 = 86_400;

/// A store whose last moment is so many days behind the clock isn't swept by itself: the clock may be wrong, and what is old by a wrong
/// clock would be gone.
const MOST_BEHIND: u64 = 30;

/// When the store is swept next. The idle threads look at it, and where it is time, the run is to end.
#[derive(Drop)]
pub struct Sweeping {
    rt: HostRuntime,
    closing: Closing,
    plan: Arc<Plan, Global>,
}

#[derive(Drop)]
struct Plan {
    /// The file that lies beside the store while it is copied.
    mark: String,
    begun: Instant,
    /// How many seconds are between two sweeps, and at how many since the beginning the next one is made.
    every: u64,
    next: AtomicU64,
    is_due: AtomicBool,
    /// Whether it was told that the clock is ahead.
    is_told: AtomicBool,
}

impl Sweeping {
    /// A sweep of the store at that path in so many hours, and again, or never.
    pub fn new(rt: &HostRuntime, closing: &Closing, path: &str, hours: u64) -> Option<Sweeping> {
        if hours == 0 {
            return None;
        }
        let every = hours.saturating_mul(HOUR);
        let plan = Plan {
            mark: format!(in rt.alloc(); "{path}.backup").ok()?,
            begun: Instant::now(rt).ok()?,
            every,
            next: AtomicU64::new(every),
            is_due: AtomicBool::new(false),
            is_told: AtomicBool::new(false),
        };
        Some(Sweeping {
            rt: same(rt)?,
            closing: closing.share().ok()?,
            plan: Arc::new(rt.alloc(), plan).ok()?,
        })
    }

    /// The same one, for somebody else.
    pub fn share(&self) -> Option<Sweeping> {
        Some(Sweeping {
            rt: same(&self.rt)?,
            closing: self.closing.share().ok()?,
            plan: Arc::try_clone(&self.plan).ok()?,
        })
    }

    /// Ends the run where it is time. While the store is copied it is put off by an hour.
    pub fn look(&self) {
        let now = self.seconds();
        if now < self.plan.next.load(Ordering::SeqCst) {
            return;
        }
        let wait = if self.is_copied() {
            HOUR
        } else {
            self.plan.is_due.store(true, Ordering::SeqCst);
            self.closing.tell(Cause::Full);
            self.plan.every
        };
        self.plan
            .next
            .store(now.saturating_add(wait), Ordering::SeqCst);
    }

    /// Whether the run that ended did so for a sweep, which is then no longer due.
    pub fn take(&self) -> bool {
        self.plan.is_due.swap(false, Ordering::SeqCst)
    }

    /// Whether what this site was told last isn't too far behind the clock. Where it is, that is said once.
    pub fn may_sweep(&self, site: &Option<Site>) -> bool {
        let Some(last) = last_moment(site) else {
            return false;
        };
        let days = RealClock::new(&self.rt).now().saturating_sub(last) / DAY;
        if days <= MOST_BEHIND {
            return true;
        }
        if !self.plan.is_told.swap(true, Ordering::SeqCst) {
            let _ = eprintln!(self.rt;
                "filesd: the clock is {days} days ahead of the store's last moment, so the store isn't swept by itself: see docs/ADMIN.md"
            );
        }
        false
    }

    // Since the beginning.
    fn seconds(&self) -> u64 {
        match self.plan.begun.elapsed(&self.rt) {
            Ok(passed) => passed.as_secs(),
            Err(_) => 0,
        }
    }

    // Whether the mark of a copy that is being made is there, and of no day before.
    fn is_copied(&self) -> bool {
        match metadata(&self.rt, self.plan.mark.as_str()) {
            Ok(found) => {
                let made = u64::try_from(found.mtime()).unwrap_or(0);
                RealClock::new(&self.rt).now().saturating_sub(made) < DAY
            }
            Err(_) => false,
        }
    }
}

// The moment of the last entry, or of the last one before it was opened.
fn last_moment(site: &Option<Site>) -> Option<u64> {
    let site = site.as_ref()?;
    if let Some(entry) = site.history().last() {
        return Some(entry.moment.seconds());
    }
    match site.opening().rows().first() {
        Some(Row::Meta(meta)) => Some(meta.last.seconds()),
        _ => None,
    }
}
