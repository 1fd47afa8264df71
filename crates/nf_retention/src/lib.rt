//! Which old versions of a file are kept as they age, and which versions and items of the trash stay within a bound of bytes: the rules
//! alone, over moments and sizes. The trash goes by the second, and the versions of files by both.
//!
//! - **Thinning.** Of a file's versions, newest first, the newest is kept. Going to older ones, a version is kept exactly where it is at
//!   least a step below the last one that was kept. The step goes by the age of that last one: below 10 seconds 2, below a minute 10,
//!   below an hour a minute, below a day an hour, below 30 days a day, and above a week.
//! - **Bounds.** Of sizes, newest first, the longest front that sums to at most a bound is kept, and the others go. The bound of a user's
//!   trash is half of the quota, that of a user's old versions half of what the charge leaves of the quota, both rounded down.
//! - **Age.** What came to the trash goes for good after 30 days.
//! - **Trash.** Of a user's items, newest first, those stay that haven't been there for 30 days and are in the longest front of such whose
//!   sizes are within the bound. The others go for good.
#![tactic(auto)]

mod budget;
pub mod laws;
mod thinning;
mod trash;
mod versions;

pub use budget::{fitting, has_expired, trash_bound, versions_bound};
pub use thinning::{step, thinned};
pub use trash::{Trashed, going, newest_first};
pub use versions::{Version, beyond};
