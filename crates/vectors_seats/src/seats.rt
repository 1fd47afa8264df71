//! Two seats of one hub in two threads, a run that becomes full, each call of a keeper that fails, and a sweep beside a seat that reads.

ghost use Rattle.std.specs.Prelude.{◌≡◌, None, Some, IfOk, IfSome};
ghost use Rattle.nf_desk.specs.Opened.{MayBegin};
ghost use Rattle.nf_hub.specs.Seats.{IsIdleSeat, IsSeat, book};
ghost use Rattle.nf_session.specs.Book.{held};
ghost use Rattle.nf_words.specs.History.{MayWant};

use nf_base::{BlobId, Digest, Moment, Name, Path};
use nf_desk::{First, FirstBlob, Opening, Swept, Unopened};
use nf_hub::{Began, Hub, Seat, Ticket};
use nf_keeper::{Keeper, MemKeeper};
use nf_session::Ending;
use nf_site::demo_rows;
use nf_words::{Answer, Caller, Denial, Goal, LockKey, Reply, Request, Spot, Wanted, Words};
use std::alloc::{AllocError, Global};
use std::process::Abort;
use std::sync::Wait;
use std::sync::atomic::{AtomicU8, Ordering};
use std::test::Fail;
use std::thread::{Threads, join_mut, yield_now};

#[derive(Clone, Copy)]
pub(crate) enum Act {
    Get,
    Put,
    Mkcol,
    Delete,
}

/// What two threads share. Each Begin and each End is a stage, before which the one waits for the other.
#[derive(Drop)]
pub(crate) struct Shared<K: Keeper + Drop> {
    alloc: Global,
    hub: Hub<K>,
    stage: AtomicU8,
}

pub(crate) type Started<K> = Result<(Shared<K>, Seat<K>), Unopened<K>>;

/// The demonstration rows and the bytes of their one file.
fn demonstration(alloc: Global) -> Result<Opening, AllocError>
    ensures { IfOk result MayBegin }
{
    let rows = demo_rows(alloc)?;
    let bytes = b"hello\n".to_vec(alloc)?;
    let id = BlobId::new(1);
    let blob = Some(FirstBlob { id, bytes });
    Ok(Opening::Either(First { rows, blob }))
}

fn request(alloc: Global, act: Act, path: &[&str]) -> Option<Request>
    ensures { IfSome result MayWant }
{
    let mut names = Vec::new(alloc);
    for name in path {
        names.push(name.as_bytes().to_vec(alloc).ok()?).ok()?;
    }
    let user = Some(Name::read(alloc, b"alice").ok()?);
    let path = Path::read(alloc, &names).ok()?;
    let spot = Spot { user, path };
    let length = 8;
    let wanted = match act {
        Act::Get => Wanted::Get(spot),
        Act::Put => Wanted::Put { spot, length },
        Act::Mkcol => Wanted::Mkcol(spot),
        Act::Delete => Wanted::Delete(spot),
    };
    let caller = Caller::Token(Digest::of(b"alice-1"));
    Some(Request { caller, wanted })
}

/// The End of what was granted: of a PUT with its body, of a GET once its first piece was read.
fn finish<K: Keeper + Drop, R: Wait>(
    rt: &R,
    shared: &Shared<K>,
    ticket: Ticket,
    seat: &mut Seat<K>,
) -> Answer
    requires seat { IsSeat K.Keeper shared.now.hub seat.old }
    requires granted { held (book K.Keeper shared.now.hub seat.old) ≡ Some ticket.goal }
    ensures { IsIdleSeat K.Keeper shared.now.hub seat.new }
{
    let lost = match ticket.goal() {
        Goal::Serve(content) if !content.pieces().is_empty() => {
            shared.hub.blob(rt, seat, &ticket, 0).is_err()
        }
        _ => false,
    };
    let how = match (ticket.goal(), b"good bye".to_vec(shared.alloc)) {
        (Goal::Store { length: 8, .. }, Ok(body)) => Ending::Body(body),
        _ => Ending::Gone,
    };
    let answer = shared.hub.end(rt, seat, ticket, Moment::new(5), how);
    if lost { Err(Denial::Store) } else { answer }
}

/// Waits until so many stages are over.
fn wait_for<R: Wait>(rt: &R, stage: &AtomicU8, stages: u8) {
    for _ in rt.forever() {
        if stage.load(Ordering::SeqCst) >= stages {
            return;
        }
        yield_now();
    }
}

/// A request of alice's, whose Begin and End wait for so many stages.
pub(crate) fn ask<K: Keeper + Drop, R: Wait>(
    rt: &R,
    shared: &Shared<K>,
    stages: (u8, u8),
    act: Act,
    path: &[&str],
    seat: &mut Seat<K>,
) -> Answer
    requires { IsIdleSeat K.Keeper shared.now.hub seat.old }
    ensures { IsIdleSeat K.Keeper shared.now.hub seat.new }
{
    let request = request(shared.alloc, act, path).ok_or(Denial::Memory)?;
    answered(rt, shared, stages, request, seat)
}

/// A request, whose Begin and End wait for so many stages.
pub(crate) fn answered<K: Keeper + Drop, R: Wait>(
    rt: &R,
    shared: &Shared<K>,
    stages: (u8, u8),
    request: Request,
    seat: &mut Seat<K>,
) -> Answer
    requires idle { IsIdleSeat K.Keeper shared.now.hub seat.old }
    requires wants { MayWant request }
    ensures { IsIdleSeat K.Keeper shared.now.hub seat.new }
{
    let (first, second) = (1, 2);
    wait_for(rt, &shared.stage, stages.0);
    let began = shared
        .hub
        .begin(rt, seat, Moment::new(5), Words { first, second }, request);
    shared.stage.fetch_add(1, Ordering::SeqCst);
    wait_for(rt, &shared.stage, stages.1);
    let answer = match began {
        Began::Granted(ticket) => finish(rt, shared, ticket, seat),
        Began::Done(reply) => Ok(reply),
        Began::Refused(refusal) => Err(refusal),
    };
    shared.stage.fetch_add(1, Ordering::SeqCst);
    answer
}

/// A PUT in whose middle another thread asks for something: how the PUT is answered, and how that is.
fn put_amid<K: Keeper + Drop + Send, R: Threads + Wait + Sync>(
    rt: &R,
    shared: &Shared<K>,
    put: &[&str],
    act: Act,
    path: &[&str],
    first: &mut Seat<K>,
    second: &mut Seat<K>,
) -> (Answer, Answer)
    requires { IsIdleSeat K.Keeper shared.now.hub first.old × IsIdleSeat K.Keeper shared.now.hub second.old }
    ensures { IsIdleSeat K.Keeper shared.now.hub first.new × IsIdleSeat K.Keeper shared.now.hub second.new }
{
    shared.stage.store(0, Ordering::SeqCst);
    let mut other = || -> Answer
        requires { IsIdleSeat K.Keeper shared.now.hub second.now }
        ensures { IsIdleSeat K.Keeper shared.entry.now.hub second.exit.now }
    { ask(rt, shared, (1, 2), act, path, second) };
    let mut one = || -> Answer
        requires { IsIdleSeat K.Keeper shared.now.hub first.now }
        ensures { IsIdleSeat K.Keeper shared.entry.now.hub first.exit.now }
    { ask(rt, shared, (0, 3), Act::Put, put, first) };
    join_mut(rt, &mut one, &mut other)
}

/// A hub over what the keeper has, and its first seat.
pub(crate) fn start<K: Keeper + Drop>(alloc: Global, keeper: K, opening: Opening) -> Started<K>
    requires { MayBegin opening }
    ensures { IfOk result (λ made. IsIdleSeat K.Keeper made.0.hub made.1) }
{
    let (hub, seat) = Hub::start(alloc, keeper, opening, 2)?;
    let stage = AtomicU8::new(0);
    Ok((Shared { alloc, hub, stage }, seat))
}

/// What is in the way of what is asked amid a PUT, where that is refused and the PUT is then stored.
fn in_way<K: Keeper + Drop + Send, R: Threads + Wait + Sync>(
    rt: &R,
    shared: &Shared<K>,
    put: &[&str],
    act: Act,
    path: &[&str],
    first: &mut Seat<K>,
    second: &mut Seat<K>,
) -> Option<LockKey>
    requires { IsIdleSeat K.Keeper shared.now.hub first.old × IsIdleSeat K.Keeper shared.now.hub second.old }
    ensures { IsIdleSeat K.Keeper shared.now.hub first.new × IsIdleSeat K.Keeper shared.now.hub second.new }
{
    let (put, asked) = put_amid(rt, shared, put, act, path, first, second);
    if put.is_err() {
        return None;
    }
    match asked {
        Err(Denial::Locked(key)) => Some(key),
        _ => None,
    }
}

fn is_slot(key: &Option<LockKey>, number: u64, text: &str) -> bool {
    match key {
        Some(LockKey::Slot { folder, name }) => {
            folder.number() == number && name.as_bytes() == text.as_bytes()
        }
        Some(LockKey::Node(_)) | None => false,
    }
}

fn is_node(key: &Option<LockKey>, number: u64) -> bool {
    match key {
        Some(LockKey::Node(node)) => node.number() == number,
        Some(LockKey::Slot { .. }) | None => false,
    }
}

// One free name, a file that is to be removed, and a folder that is.
fn meet<K: Keeper + Drop + Send, R: Threads + Wait + Sync + Abort>(
    rt: &R,
    shared: &Shared<K>,
    a: &mut Seat<K>,
    b: &mut Seat<K>,
)
    requires { IsIdleSeat K.Keeper shared.now.hub a.old × IsIdleSeat K.Keeper shared.now.hub b.old }
    ensures { IsIdleSeat K.Keeper shared.now.hub a.new × IsIdleSeat K.Keeper shared.now.hub b.new }
{
    let name = in_way(rt, shared, &["x"], Act::Put, &["x"], a, b);
    assert!(rt; is_slot(&name, 1, "x"));
    let file = in_way(rt, shared, &["x"], Act::Delete, &["x"], b, a);
    assert!(rt; is_node(&file, 5));
    let _ = ask(rt, shared, (0, 0), Act::Mkcol, &["d"], b);
    let name = in_way(rt, shared, &["d", "x"], Act::Delete, &["d"], a, b);
    assert!(rt; is_slot(&name, 6, "x"));
}

#[test]
fn what_two_seats_do_to_each_other(rt: HostRuntime) -> Result<(), Fail> {
    let alloc = rt.alloc();
    let started = start(alloc, MemKeeper::new(alloc, &[])?, demonstration(alloc)?);
    let (shared, mut a) = started.ok().ok_or("no hub")?;
    let mut b = shared.hub.split(&mut a).ok_or("no seat")?;
    meet(&rt, &shared, &mut a, &mut b);
    shared.hub.join(&mut a, b);
    assert!(rt; a.whole());
    assert!(rt; shared.hub.close(a).0.history().len() == 10);
    Ok(())
}

#[test]
fn a_hub_becomes_full(rt: HostRuntime) -> Result<(), Fail> {
    let alloc = rt.alloc();
    let started = start(alloc, MemKeeper::new(alloc, &[])?, demonstration(alloc)?);
    let (shared, mut seat) = started.ok().ok_or("no hub")?;
    for count in 0..262_143 {
        let listing = ask(&rt, &shared, (0, 0), Act::Get, &[], &mut seat);
        assert!(rt; matches!(listing, Ok(Reply::Listing(_))), "at {count}");
    }
    let refused = ask(&rt, &shared, (0, 0), Act::Get, &[], &mut seat);
    assert!(rt; matches!(refused, Err(Denial::RunFull)));
    Ok(())
}

/// How a PUT, a GET and a DELETE of the one file are answered, where the keeper's call of that number fails.
fn ask_all<K: Keeper + Drop, R: Wait + Abort>(
    rt: &R,
    shared: &Shared<K>,
    failing: u64,
    seat: &mut Seat<K>,
)
    requires { IsIdleSeat K.Keeper shared.now.hub seat.old }
    ensures { IsIdleSeat K.Keeper shared.now.hub seat.new }
{
    let put = ask(rt, shared, (0, 0), Act::Put, &["hello.txt"], seat);
    assert!(rt; is_answered(&put, failing == 3), "PUT, at call {failing}");
    let get = ask(rt, shared, (0, 0), Act::Get, &["hello.txt"], seat);
    assert!(rt; is_answered(&get, failing == 4), "GET, at call {failing}");
    let delete = ask(rt, shared, (0, 0), Act::Delete, &["hello.txt"], seat);
    assert!(rt;
        is_answered(&delete, failing == 5),
        "DELETE, at call {failing}"
    );
}

#[test]
fn each_call_of_the_keeper_fails(rt: HostRuntime) -> Result<(), Fail> {
    let alloc = rt.alloc();
    // `load` and `apply` at the start, then `apply`, `blob` and `apply`, and there is no sixth call.
    for failing in 1..7 {
        let keeper = MemKeeper::new(alloc, &[failing])?;
        let keeper = match start(alloc, keeper, demonstration(alloc)?) {
            Ok((shared, mut seat)) if failing > 2 => {
                ask_all(&rt, &shared, failing, &mut seat);
                assert!(rt; seat.whole());
                shared.hub.close(seat).1
            }
            Err(unopened) if failing < 3 => unopened.keeper,
            _ => return Err("the start")?,
        };
        assert!(rt; keeper.faults() == u64::from(failing < 6));
    }
    Ok(())
}

/// Whether the store failed it where it has to, and else nothing refused it.
fn is_answered(answer: &Answer, fails: bool) -> bool {
    if fails {
        matches!(answer, Err(Denial::Store))
    } else {
        answer.is_ok()
    }
}

/// A GET of the one file amid which the other seat sweeps: how the GET ends, and what the sweep took.
fn sweep_amid<K: Keeper + Drop, R: Wait>(
    rt: &R,
    shared: &Shared<K>,
    reader: &mut Seat<K>,
    sweeper: &mut Seat<K>,
) -> (Answer, Result<Swept, Denial>)
    requires { IsIdleSeat K.Keeper shared.now.hub reader.old × IsIdleSeat K.Keeper shared.now.hub sweeper.old }
    ensures { IsIdleSeat K.Keeper shared.now.hub reader.new × IsIdleSeat K.Keeper shared.now.hub sweeper.new }
{
    let Some(request) = request(shared.alloc, Act::Get, &["hello.txt"]) else {
        return (Err(Denial::Memory), Err(Denial::Memory));
    };
    let (first, second) = (1, 2);
    let words = Words { first, second };
    let began = shared.hub.begin(rt, reader, Moment::new(5), words, request);
    let swept = shared.hub.sweep(rt, sweeper, Moment::new(5));
    let answer = match began {
        Began::Granted(ticket) => finish(rt, shared, ticket, reader),
        Began::Done(reply) => Ok(reply),
        Began::Refused(refusal) => Err(refusal),
    };
    (answer, swept)
}

#[test]
fn a_sweep_beside_a_seat_that_reads(rt: HostRuntime) -> Result<(), Fail> {
    let alloc = rt.alloc();
    let started = start(alloc, MemKeeper::new(alloc, &[])?, demonstration(alloc)?);
    let (shared, mut a) = started.ok().ok_or("no hub")?;
    let mut b = shared.hub.split(&mut a).ok_or("no seat")?;
    let (read, swept) = sweep_amid(&rt, &shared, &mut a, &mut b);
    assert!(rt; read.is_ok());
    assert!(rt; swept.is_ok_and(|gone| gone.items == 0));
    let _ = ask(&rt, &shared, (0, 0), Act::Delete, &["hello.txt"], &mut a);
    // It lies in the trash for 30 days.
    let early = shared.hub.sweep(&rt, &mut b, Moment::new(2_592_004));
    assert!(rt; early.is_ok_and(|gone| gone.items == 0));
    let due = shared.hub.sweep(&rt, &mut b, Moment::new(2_592_005));
    assert!(rt; due.is_ok_and(|gone| gone.items == 1));
    shared.hub.join(&mut a, b);
    assert!(rt; a.whole());
    let mut keeper = shared.hub.close(a).1;
    assert!(rt;
        keeper
            .blob(BlobId::new(1))
            .is_ok_and(|bytes| bytes.is_none())
    );
    Ok(())
}
