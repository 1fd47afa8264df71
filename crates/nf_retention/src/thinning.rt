//! How the versions of a file thin out with age.

ghost use Rattle.std.specs.Prelude.{◌≡◌, ◌≤◌, IfOk, All};
ghost use Rattle.nf_retention.specs.Thinning.{AreFalling, AreKept, AreParted, kept, step, thinned};

use nf_base::Moment;
use std::alloc::{AllocError, Global};

/// How far below a kept version of this age the next one is kept; both in seconds.
pub fn step(age: u64) -> u64
    ensures { result ≡ step age }
{
    if age < 10 {
        2
    } else if age < 60 {
        10
    } else if age < 3_600 {
        60
    } else if age < 86_400 {
        3_600
    } else if age < 2_592_000 {
        86_400
    } else {
        604_800
    }
}

/// Those of a file's versions that go, newest first, as the versions are.
pub fn thinned(alloc: Global, now: Moment, versions: &[Moment]) -> Result<Vec<Moment>, AllocError>
    requires falling { AreFalling versions.now }
    requires past { All (λ version. version ≤ now) versions.now }
    ensures gone { IfOk result (λ gone. gone.items ≡ thinned now versions.now) }
    // Those that go and those that are kept are all.
    ensures parted { IfOk result (λ gone. AreParted versions.now (kept now versions.now) gone.items) }
    ensures kept { AreKept now versions.now (kept now versions.now) }
{
    let mut gone = Vec::new(alloc);
    let [newest, older @ ..] = versions else {
        return Ok(gone);
    };
    let mut last = newest.seconds();
    for version in older {
        let at = version.seconds();
        if last - at >= step(now.seconds() - last) {
            last = at;
        } else {
            gone.push(*version)?;
        }
    }
    Ok(gone)
}
