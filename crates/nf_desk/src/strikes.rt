//! How often the keeper failed each seat at what makes no entry.

ghost use Rattle.std.specs.Prelude.{◌≡◌, ◌<◌, ◌≤◌, replicate};
ghost use Rattle.nf_desk.specs.Pieces.{StrikesBy, StrikesOne};

use nf_base::MAX_SEATS;
use nf_keeper::KeepFault;

pub(crate) fn no_strikes() -> [u64; MAX_SEATS]
    ensures { result ≡ replicate MAX_SEATS 0 }
{
    [0; MAX_SEATS]
}

/// Counts it at the seat where the keeper failed to read.
pub(crate) fn strike(
    strikes: &mut [u64; MAX_SEATS],
    seat: u64,
    read: &Result<Option<Vec<u8>>, KeepFault>,
)
    requires { (0 < seat) × (seat ≤ MAX_SEATS) }
    ensures { StrikesBy seat strikes.old strikes.new read.now }
{
    if let Err(KeepFault::Failed) = read {
        strike_once(strikes, seat);
    }
}

/// Counts a failure of the keeper at the seat.
pub(crate) fn strike_once(strikes: &mut [u64; MAX_SEATS], seat: u64)
    requires { (0 < seat) × (seat ≤ MAX_SEATS) }
    ensures { StrikesOne seat strikes.old strikes.new }
{
    let place = (seat - 1) as usize;
    strikes[place] = strikes[place].saturating_add(1);
}
