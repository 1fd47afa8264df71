//! The file server's program.
#![tactic(auto)]

use crate::listening::{SocketWorker, dice, same, workers};
use crate::settings::{MOST_WORKERS, Serving, read_serving, store};
use crate::sweeping::Sweeping;
use crate::telling::{tell_rows, tell_usage};
use crate::watching::{close_store, open_again, open_store};
use filesd::{Finished, Status, run};
use nf_command::{Command, command_of};
use nf_dice::RealDice;
use nf_keeper::{Keeper, MemKeeper};
use nf_outside::{Input, MemSink, Output, RealClock};
use nf_server::{Cause, Closing};
use nf_site::Site;
use std::env;
use std::io::ErrorKind;
use std::process::ExitCode;
use std::sync::Wait;
use std::thread::{Threads, sleep};
use std::time::{Duration, Instant};

mod access_log;
mod listening;
mod settings;
mod sweeping;
mod telling;
mod version;
mod watching;

/// How many seconds it takes at least until a store that refuses everything is opened anew.
const REST: u64 = 10;

/// What the program was started with.
#[derive(Drop)]
struct Order {
    words: Vec<String>,
    store: Option<String>,
    serving: Option<Serving>,
}

/// Does what the words ask for, and says on standard error how it ended, if not well.
fn main(rt: HostRuntime) -> ExitCode {
    let status = match read_order(&rt) {
        Ok(order) => obey(&rt, &rt, &order),
        Err(status) => status,
    };
    if let Status::BadRows(fault) = status {
        tell_rows(&rt, fault);
    }
    if status != Status::Done {
        let word = status.word();
        let _ = eprintln!(rt; "filesd: {word}");
    }
    ExitCode::from(status.code())
}

// Words and settings are judged here, before a store is opened or made.
fn read_order(rt: &HostRuntime) -> Result<Order, Status> {
    let words = words(rt)?;
    let serving = match command_of(rt.alloc(), &words) {
        Ok(Some(Command::Serve { connections })) => Some(read_serving(rt, connections)?),
        Ok(Some(_)) => None,
        Ok(None) => {
            tell_usage(rt);
            return Err(Status::Words);
        }
        Err(_) => return Err(Status::Memory),
    };
    Ok(Order {
        words,
        store: store(rt)?,
        serving,
    })
}

// The words after the program's own name.
fn words(rt: &HostRuntime) -> Result<Vec<String>, Status> {
    let args = match env::args(rt) {
        Ok(args) => args,
        // One of them is no UTF-8.
        Err(error) if error.kind() == ErrorKind::InvalidData => {
            tell_usage(rt);
            return Err(Status::Words);
        }
        Err(_) => return Err(Status::Memory),
    };
    let mut words = Vec::new(rt.alloc());
    for word in args.skip(1) {
        if words.push(word).is_err() {
            return Err(Status::Memory);
        }
    }
    Ok(words)
}

/// What all runs of the program share.
#[derive(Drop)]
struct Means {
    closing: Closing,
    sweeping: Option<Sweeping>,
    dice: RealDice,
    workers: Vec<SocketWorker>,
}

/// What is asked for, over the file that is the store, or else over a keeper in memory. `turns` is the same runtime, as what may wait for
/// turns and start threads.
fn obey<W: Threads + Wait + Sync>(rt: &HostRuntime, turns: &W, order: &Order) -> Status {
    let mut means = match gather(rt, order) {
        Ok(means) => means,
        Err(status) => return status,
    };
    match &order.store {
        Some(path) => obey_over_file(rt, turns, order, path.as_str(), &mut means),
        None => match MemKeeper::new(rt.alloc(), &[]) {
            Ok(keeper) => run_on(rt, turns, order, keeper, &mut means).0,
            Err(_) => Status::Memory,
        },
    }
}

fn gather(rt: &HostRuntime, order: &Order) -> Result<Means, Status> {
    let Ok(closing) = Closing::new(rt.alloc()) else {
        return Err(Status::Memory);
    };
    let dice = dice(rt)?;
    let sweeping = match (&order.serving, &order.store) {
        (Some(serving), Some(path)) => Sweeping::new(rt, &closing, path.as_str(), serving.sweep),
        _ => None,
    };
    let workers = workers(rt, &order.serving, &closing, &sweeping)?;
    Ok(Means {
        closing,
        sweeping,
        dice,
        workers,
    })
}

/// The same over a file. A server whose store refuses everything opens it anew, once in ten seconds at most.
fn obey_over_file<W: Threads + Wait + Sync>(
    rt: &HostRuntime,
    turns: &W,
    order: &Order,
    path: &str,
    means: &mut Means,
) -> Status {
    let mut opening = open_store(rt, path, &means.closing);
    for _ in turns.forever() {
        let store = match opening {
            Ok(store) => store,
            Err(status) => return status,
        };
        let opened = Instant::now(rt).ok();
        let finished = run_on(rt, turns, order, store, means);
        let (status, store) = finished;
        close_store(rt, store);
        match means.closing.cause() {
            None | Some(Cause::Full) => return status,
            Some(Cause::Store | Cause::Memory) => {}
        }
        rest(rt, opened);
        means.closing.reset();
        opening = open_again(rt, path, &means.closing);
    }
    unreachable!()
}

// Waits until so long has passed since then.
fn rest(rt: &HostRuntime, since: Option<Instant>) {
    if let Some(since) = since
        && let Ok(passed) = since.elapsed(rt)
    {
        sleep(rt, Duration::from_secs(REST).saturating_sub(passed));
    }
}

/// The same over any keeper, in run after run: one that is full, or at whose end the store is swept, is followed by the next, over the same
/// doors and the rows that it left.
fn run_on<W: Threads + Wait + Sync, K: Keeper + Drop + Send>(
    rt: &HostRuntime,
    turns: &W,
    order: &Order,
    keeper: K,
    means: &mut Means,
) -> (Status, K) {
    let mut keeper = keeper;
    for _ in turns.forever() {
        let Finished {
            status,
            keeper: left,
            site,
        } = run_once(rt, turns, &order.words, keeper, means);
        keeper = left;
        if !matches!(status, Status::RunFull | Status::Done)
            || means.closing.cause() != Some(Cause::Full)
        {
            return (status, keeper);
        }
        let is_due = is_sweep_due(&means.sweeping);
        let may_sweep = is_due && may_sweep(&means.sweeping, &site);
        // With it goes the history.
        drop(site);
        means.closing.reset();
        if may_sweep {
            keeper = sweep(rt, turns, keeper, means);
        } else if !is_due {
            let _ = eprintln!(rt; "filesd: the run's history is full, and the next run begins");
        }
    }
    unreachable!()
}

fn run_once<W: Threads + Wait + Sync, K: Keeper + Drop + Send>(
    rt: &HostRuntime,
    turns: &W,
    words: &[String],
    keeper: K,
    means: &mut Means,
) -> Finished<K> {
    let Some(clock) = same(rt) else {
        return unfinished(keeper);
    };
    let count = means.workers.len().min(MOST_WORKERS as usize);
    run(
        turns,
        rt.alloc(),
        words,
        &mut Input::new(rt.stdin()),
        &mut Output::new(rt.stdout()),
        keeper,
        &mut RealClock::new(clock),
        &mut means.dice,
        &mut means.workers[..count],
    )
}

fn unfinished<K: Drop>(keeper: K) -> Finished<K> {
    Finished {
        status: Status::Memory,
        keeper,
        site: None,
    }
}

fn is_sweep_due(sweeping: &Option<Sweeping>) -> bool {
    match sweeping {
        Some(sweeping) => sweeping.take(),
        None => false,
    }
}

fn may_sweep(sweeping: &Option<Sweeping>, site: &Option<Site>) -> bool {
    match sweeping {
        Some(sweeping) => sweeping.may_sweep(site),
        None => false,
    }
}

/// Sweeps what the keeper has, between two runs, and says so. Where it fails the next run begins all the same.
fn sweep<W: Threads + Wait + Sync, K: Keeper + Drop + Send>(
    rt: &HostRuntime,
    turns: &W,
    keeper: K,
    means: &mut Means,
) -> K {
    let began = Instant::now(rt).ok();
    let Finished {
        status,
        keeper,
        site,
    } = sweep_once(rt, turns, keeper, means);
    drop(site);
    let took = began.and_then(|began| began.elapsed(rt).ok());
    match (status, took) {
        (Status::Done, Some(took)) => {
            let took = took.as_millis();
            let _ = eprintln!(rt; "filesd: the store was swept in {took} ms");
        }
        (Status::Done, None) => {
            let _ = eprintln!(rt; "filesd: the store was swept");
        }
        (status, _) => {
            let word = status.word();
            let _ = eprintln!(rt; "filesd: the store wasn't swept: {word}");
        }
    }
    keeper
}

// By the command of that name. What it writes is for nobody.
fn sweep_once<W: Threads + Wait + Sync, K: Keeper + Drop + Send>(
    rt: &HostRuntime,
    turns: &W,
    keeper: K,
    means: &mut Means,
) -> Finished<K> {
    let alloc = rt.alloc();
    let (Ok(word), Some(clock)) = (String::from_str(alloc, "sweep"), same(rt)) else {
        return unfinished(keeper);
    };
    run(
        turns,
        alloc,
        &[word],
        &mut Input::new(rt.stdin()),
        &mut MemSink::new(alloc, Vec::new(alloc)),
        keeper,
        &mut RealClock::new(clock),
        &mut means.dice,
        &mut means.workers[..0],
    )
}
