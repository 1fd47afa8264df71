//! Keys that come again.

ghost use Rattle.std.specs.Prelude.{◌≡◌, IfOk};
ghost use Rattle.std.specs.Ordering.{eq_by_cmp};
ghost use Rattle.nf_opening.specs.Again.{first_again};

use std::alloc::{AllocError, Global};
use std::collections::BTreeSet;

/// The first index whose key comes again. What has no key shares none.
pub(crate) fn first_again<K: Ord + Drop>(
    alloc: Global,
    keys: Vec<Option<K>>,
) -> Result<Option<usize>, AllocError>
    ensures { IfOk result (λ at. at ≡ first_again (eq_by_cmp K.cmp) keys.items) }
{
    let mut keys = keys;
    let mut seen = BTreeSet::new(alloc);
    let mut least = None;
    // From the end, so that a key that was seen comes again behind this one.
    while let Some(key) = keys.pop() {
        if let Some(key) = key {
            if !seen.insert(key)? {
                least = Some(keys.len());
            }
        }
    }
    Ok(least)
}
