//! A sweep: its step, and behind it what the keeper drops.

ghost use Rattle.std.specs.Prelude.{◌≡◌, ◌<◌, ◌≤◌, ◌-◌, OnOk, OnErr, option_map};
ghost use Rattle.nf_desk.specs.Desk.{Tale};
ghost use Rattle.nf_desk.specs.Stepping.{standing};
ghost use Rattle.nf_desk.specs.Sweeping.{Sweeps, held_in, shown_by};
ghost use Rattle.nf_keeper.specs.Keeping.{Counts, swept};
ghost use Rattle.nf_laws.specs.Named.{blobs_named};
ghost use Rattle.nf_words.specs.Prelude.{MayAsk};
ghost use Rattle.nf_words.specs.declared.history.Event.TheVariants.{Sweep};

use crate::stepping::start;
use crate::strikes::strike_once;
use nf_base::{MAX_SEATS, Moment};
use nf_keeper::{KeepFault, Keeper};
use nf_site::Site;
use nf_words::{Denial, Event};
use std::alloc::Global;

/// What went by a sweep.
#[derive(Clone, Copy, PartialEq, Eq)]
pub struct Swept {
    /// How many items of the trash.
    pub items: u64,
    /// How many uploads.
    pub uploads: u64,
}

/// The sweep of a seat. Where its step was answered, the blobs go that no row and no granted GET names then.
pub(crate) fn sweep<K: Keeper>(
    alloc: Global,
    site: &mut Site,
    keeper: &mut K,
    strikes: &mut [u64; MAX_SEATS],
    seat: u64,
    now: Moment,
) -> Result<Swept, Denial>
    requires seat { (0 < seat) × (seat ≤ MAX_SEATS) }
    requires asked { MayAsk site.old.kept.state seat Sweep }
    ensures { (begun : Tale) → Sweeps seat (shown_by (standing site.old.kept (K.told keeper.old) (K.faults keeper.old)) strikes.old begun)
        (shown_by (standing site.new.kept (K.told keeper.new) (K.faults keeper.new)) strikes.new begun) now result }
{
    let before = held(site);
    start(alloc, site, keeper, seat, now, Event::Sweep)?;
    match drop_rest(alloc, site, keeper) {
        Ok(()) => Ok(gone_between(&before, &held(site))),
        Err(KeepFault::Failed) => {
            strike_once(strikes, seat);
            Err(Denial::Store)
        }
        Err(KeepFault::Memory) => Err(Denial::Memory),
    }
}

/// Has the keeper drop the blobs that no row and no granted GET names.
fn drop_rest<K: Keeper>(alloc: Global, site: &Site, keeper: &mut K) -> Result<(), KeepFault>
    ensures made { OnOk result (K.told keeper.new ≡ option_map (swept (blobs_named site.now.kept.state)) (K.told keeper.old)) }
    ensures same { OnErr result (K.told keeper.new ≡ K.told keeper.old) }
    ensures count { Counts (K.faults keeper.old) (K.faults keeper.new) result }
{
    let named = site.named(alloc)?;
    keeper.sweep(&named)
}

/// How many items and uploads there are.
fn held(site: &Site) -> Swept
    ensures { result ≡ held_in site.now.kept.state }
{
    Swept {
        items: site.items() as u64,
        uploads: site.uploads() as u64,
    }
}

fn gone_between(before: &Swept, after: &Swept) -> Swept
    ensures { result ≡ record { items = before.now.items - after.now.items; uploads = before.now.uploads - after.now.uploads } }
{
    Swept {
        items: before.items.saturating_sub(after.items),
        uploads: before.uploads.saturating_sub(after.uploads),
    }
}
