//! What each of some users has, in sums.

ghost use Rattle.std.specs.Prelude.{◌≡◌, ◌==◌, ◌+◌, ◌<◌, ◌^◌, ℕ, OnOk, if◌then◌else◌};
ghost use Rattle.nf_opening.specs.Totals.{total_of};

use nf_base::UserId;
use std::alloc::AllocError;
use std::collections::BTreeMap;

/// What an owner has.
pub(crate) fn total(totals: &BTreeMap<u32, u128>, owner: UserId) -> u128
    ensures { result ≡ total_of totals.now owner }
{
    match totals.get(&owner.number()) {
        Some(sum) => *sum,
        None => 0,
    }
}

/// An owner has so many more.
pub(crate) fn add(
    totals: &mut BTreeMap<u32, u128>,
    owner: UserId,
    more: u64,
) -> Result<(), AllocError>
    requires { total_of totals.old owner + more < 2 ^ 128 }
    ensures { OnOk result ((other : ℕ) → total_of totals.new other ≡ (if owner == other then total_of totals.old owner + more else total_of totals.old other)) }
{
    let sum = total(totals, owner) + u128::from(more);
    totals.insert(owner.number(), sum)?;
    Ok(())
}
