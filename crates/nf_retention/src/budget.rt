//! What stays within a bound of bytes, and how long the trash is kept.

ghost use Rattle.std.specs.Prelude.{◌≡◌, ◌↔◌, IsTrue};
ghost use Rattle.nf_retention.specs.Budget.{IsExpired, IsLongestWithin, trash_bound, versions_bound};

use nf_base::Moment;

/// How long an item stays in the trash, in seconds: 30 days.
const TRASH_AGE: u64 = 2_592_000;

/// How many of the front stay: the longest front whose sizes sum to at most the bound does.
pub fn fitting(bound: u64, sizes: &[u64]) -> usize
    ensures { IsLongestWithin bound sizes.now result }
{
    let mut left = bound;
    let mut count = 0;
    for size in sizes {
        if *size > left {
            return count;
        }
        left -= *size;
        count += 1;
    }
    count
}

/// What a user's trash may have: half of the quota.
pub fn trash_bound(quota: u64) -> u64
    ensures { result ≡ trash_bound quota }
{
    quota / 2
}

/// What a user's old versions may have: half of what the charge leaves of the quota, and nothing where it leaves none.
pub fn versions_bound(quota: u64, charge: u64) -> u64
    ensures { result ≡ versions_bound quota charge }
{
    quota.saturating_sub(charge) / 2
}

/// Whether what came to the trash at that moment goes for good.
pub fn has_expired(at: Moment, now: Moment) -> bool
    ensures { IsTrue result ↔ IsExpired at now }
{
    now.seconds().saturating_sub(at.seconds()) >= TRASH_AGE
}
