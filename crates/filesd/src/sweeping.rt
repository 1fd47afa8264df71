//! The command that has go what the trashes don't hold any more, and drops the bodies that nothing names any more.

ghost use Rattle.std.specs.Prelude.{◌≡◌, IfSome, Ok};
ghost use Rattle.filesd.specs.Outside.{outlet_with, output_alone};
ghost use Rattle.filesd.specs.Reopening.{Leaves, Pays};
ghost use Rattle.filesd.specs.Seat.{AreOwn};
ghost use Rattle.filesd.specs.Sweep.{Sweeps, TellsSwept};

use crate::opening::status_of;
use crate::running::{Finished, unopened};
use crate::status::Status;
use nf_base::Moment;
use nf_desk::{Desk, Opening, Swept, Unopened};
use nf_http::send;
use nf_keeper::Keeper;
use nf_outside::{Clock, Sink};
use nf_words::Denial;
use std::alloc::Global;

/// The seat that sweeps. There is no other.
const SEAT: u64 = 1;

/// Makes one sweep, at one reading of the clock, and says what went.
pub(crate) fn sweep<O: Sink, K: Keeper + Drop, C: Clock>(
    alloc: Global,
    output: &mut O,
    keeper: K,
    clock: &mut C,
) -> Finished<K>
    ensures sweeps { Sweeps C.reads (outlet_with O.Ends K.Keeper output.old keeper clock.old)
        (outlet_with O.Ends K.Keeper output.new result.keeper clock.new) result.status result.site }
    ensures leaves { IfSome result.site (λ site. Leaves site.kept (K.told result.keeper)) }
    ensures paid { IfSome result.site (λ site. Pays site.kept (K.faults keeper) (K.faults result.keeper)) }
    ensures alone { IfSome result.site (λ site. AreOwn site.kept.history) }
{
    match Desk::open(alloc, keeper, Opening::Kept) {
        Ok(desk) => {
            let mut desk = desk;
            let swept = desk.sweep(SEAT, Moment::new(clock.now()));
            let (site, keeper) = desk.into_parts();
            Finished {
                status: tell(alloc, output, &swept),
                keeper,
                site: Some(site),
            }
        }
        Err(Unopened { fault, keeper }) => unopened(status_of(fault), keeper),
    }
}

/// Says what went, if all was done.
fn tell<O: Sink>(alloc: Global, output: &mut O, swept: &Result<Swept, Denial>) -> Status
    ensures tells { TellsSwept swept.now (output_alone O.Ends output.old) (output_alone O.Ends output.new) result }
    ensures begun { O.begun output.new ≡ O.begun output.old }
{
    match swept {
        Ok(gone) => say(alloc, output, gone),
        Err(Denial::Store) => Status::StoreFault,
        Err(_) => Status::Memory,
    }
}

fn say<O: Sink>(alloc: Global, output: &mut O, gone: &Swept) -> Status
    ensures tells { TellsSwept (Ok gone.now) (output_alone O.Ends output.old) (output_alone O.Ends output.new) result }
    ensures begun { O.begun output.new ≡ O.begun output.old }
{
    let line = match format!(in alloc; "items {} uploads {}\n", gone.items, gone.uploads) {
        Ok(line) => line,
        Err(_) => return Status::Memory,
    };
    match send(output, line.as_bytes()) {
        Ok(()) => Status::Done,
        Err(_) => Status::WriteFault,
    }
}
