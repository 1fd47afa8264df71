//! Turns of several threads, trees of seats, and turn numbers past 2^64.
ghost use Rattle.std.specs.Prelude.{◌<◌, ◌≤◌};
ghost use Rattle.std.specs.Thread.{IsSync};
ghost use Rattle.nf_turn.specs.Seats.{IsIdle, IsSeatOf};

use nf_turn::{Book, Seat, TurnLock};
use std::alloc::{AllocError, Global};
use std::hint;
use std::sync::Wait;
use std::test::Fail;
use std::thread::{Threads, join_mut};

/// How many turns were taken. It has no entries.
#[derive(Drop)]
struct Total {
    turns: u64,
}

impl Book for Total {
    type Entry = u64;

    type Opening = u64;

    ghost use Rattle.std.specs.Prelude.{[], None};

    ghost book = { record { seat_of = λ e. e; entries = λ _. []; strikes = λ _ _. 0; opening = λ _. 0; shelf = λ _. None } };
}

/// How often a seat takes a turn, and how long at most it keeps one, in looks at a number.
#[derive(Clone, Copy)]
struct Pace {
    times: u32,
    longest: u64,
}

/// Takes some time, another at each turn.
fn linger(turn: u64, longest: u64) {
    for _ in 0..turn.wrapping_mul(7_919).checked_rem(longest).unwrap_or(0) {
        hint::spin_loop();
    }
}

fn count<R: Wait>(rt: &R, lock: &TurnLock<Total>, seat: &mut Seat<Total>, pace: Pace)
    requires own { IsSeatOf lock.now seat.old }
    requires idle { IsIdle lock.now seat.old }
    ensures own { IsSeatOf lock.now seat.new }
    ensures idle { IsIdle lock.now seat.new }
{
    for _ in 0..pace.times {
        let total = lock.take(rt, seat);
        linger(total.turns, pace.longest);
        lock.give(
            seat,
            Total {
                turns: total.turns.wrapping_add(1),
            },
        );
    }
}

/// The seat and so many that are split off from it take so many turns each, each in a thread.
fn count_by<R: Threads + Wait + Sync>(
    rt: &R,
    lock: &TurnLock<Total>,
    seat: &mut Seat<Total>,
    others: usize,
    pace: Pace,
)
    requires own { IsSeatOf lock.now seat.old }
    requires idle { IsIdle lock.now seat.old }
    ensures own { IsSeatOf lock.now seat.new }
    ensures idle { IsIdle lock.now seat.new }
{
    if others == 0 {
        count(rt, lock, seat, pace);
        return;
    }
    let Some(mut other) = lock.split(seat) else {
        return;
    };
    let fewer = others - 1;
    let mut rest = || -> ()
        requires { IsSync R.row × IsSeatOf lock.now seat.now × IsIdle lock.now seat.now }
        ensures { IsSeatOf lock.entry.now seat.exit.now × IsIdle lock.entry.now seat.exit.now }
    { count_by(rt, lock, seat, fewer, pace) };
    let mut one = || -> ()
        requires { IsSeatOf lock.now other × IsIdle lock.now other }
        ensures { IsSeatOf lock.entry.now other.exit × IsIdle lock.entry.now other.exit }
    { count(rt, lock, &mut other, pace) };
    join_mut(rt, &mut rest, &mut one);
    lock.join(seat, other);
}

/// The total of so many seats that take so many turns each, where the first turn has this number.
fn turns_of<R: Threads + Wait + Sync>(
    rt: &R,
    alloc: Global,
    seats: usize,
    turn: u64,
    pace: Pace,
) -> Option<u64>
    requires { (0 < seats) × (seats ≤ 64) }
{
    let (lock, mut first) = TurnLock::at_turn(alloc, Total { turns: 0 }, seats, turn).ok()?;
    count_by(rt, &lock, &mut first, seats - 1, pace);
    if !first.whole() {
        return None;
    }
    Some(lock.close(first).turns)
}

#[test]
fn four_threads_lose_no_turn(rt: HostRuntime) {
    let pace = Pace {
        times: 20_000,
        longest: 0,
    };
    assert!(rt; turns_of(&rt, rt.alloc(), 4, 0, pace) == Some(80_000));
}

// A waiting thread looks 2,000 times before it sleeps: here some turns end while the next one looks, some while it falls asleep, and
// some while it sleeps.
#[test]
fn turns_that_outlast_the_looks_wake_who_is_next(rt: HostRuntime) {
    let pace = Pace {
        times: 5_000,
        longest: 5_000,
    };
    assert!(rt; turns_of(&rt, rt.alloc(), 2, 0, pace) == Some(10_000));
}

#[test]
fn sixty_four_threads_sleep_and_wake(rt: HostRuntime) {
    let pace = Pace {
        times: 50,
        longest: 5_000,
    };
    assert!(rt; turns_of(&rt, rt.alloc(), 64, 0, pace) == Some(3_200));
}

#[test]
fn turn_numbers_go_on_from_zero(rt: HostRuntime) {
    let pace = Pace {
        times: 200,
        longest: 0,
    };
    assert!(rt; turns_of(&rt, rt.alloc(), 2, u64::MAX - 99, pace) == Some(400));
}

/// The seats that took turns, in that order.
#[derive(Drop)]
struct Log {
    seats: Vec<u64>,
}

impl Book for Log {
    type Entry = u64;

    type Opening = u64;

    ghost use Rattle.std.specs.Prelude.{None};

    ghost book = { record { seat_of = λ e. e; entries = λ log. log.seats.items; strikes = λ _ _. 0; opening = λ _. 0; shelf = λ _. None } };
}

/// Takes a turn, and signs for it.
fn sign<R: Wait>(rt: &R, lock: &TurnLock<Log>, seat: &mut Seat<Log>) -> Result<(), AllocError>
    requires own { IsSeatOf lock.now seat.old }
    requires idle { IsIdle lock.now seat.old }
    ensures own { IsSeatOf lock.now seat.new }
    ensures idle { IsIdle lock.now seat.new }
{
    let mut log = lock.take(rt, seat);
    match log.seats.push(seat.number()) {
        Ok(()) => {
            lock.give(seat, log);
            Ok(())
        }
        Err(err) => {
            lock.give(seat, log);
            Err(err.into())
        }
    }
}

/// Seats are split off, and joined so that the last one has all numbers. The seats that signed.
fn signed<R: Wait>(rt: &R, alloc: Global) -> Result<Vec<u64>, AllocError> {
    let log = Log {
        seats: Vec::new(alloc),
    };
    let Ok((lock, mut first)) = TurnLock::new(alloc, log, 5) else {
        return Err(AllocError);
    };
    sign(rt, &lock, &mut first)?;
    let Some(mut second) = lock.split(&mut first) else {
        return Err(AllocError);
    };
    sign(rt, &lock, &mut second)?;
    // The second has no number to give until it takes the first in.
    if lock.split(&mut second).is_some() {
        return Err(AllocError);
    }
    lock.join(&mut second, first);
    let Some(mut third) = lock.split(&mut second) else {
        return Err(AllocError);
    };
    sign(rt, &lock, &mut third)?;
    sign(rt, &lock, &mut second)?;
    if second.whole() || third.whole() || second.left() != 2 {
        return Err(AllocError);
    }
    lock.join(&mut third, second);
    sign(rt, &lock, &mut third)?;
    if !third.whole() {
        return Err(AllocError);
    }
    Ok(lock.close(third).seats)
}

#[test]
fn a_tree_of_seats_becomes_whole(rt: HostRuntime) -> Result<(), Fail> {
    let seats = signed(&rt, rt.alloc())?;
    assert!(rt; seats.as_slice() == [1, 2, 3, 2, 3].as_slice());
    Ok(())
}
