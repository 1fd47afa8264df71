//! A keeper over disks in memory, one of which fails from some call on. Then all are cut, and what was kept has to be there.

use nf_base::{BlobId, Changes};
use nf_keeper::{Keeper, NewBlob};
use nf_keeper_sql::{Sizes, SqlKeeper};
use sqlite::{Connection, FileStore};
use sqlite_disk::{Crash, Files, Fuse, Memory};
use sqlite_pager::Options;
use std::alloc::Global;
use std::process::Abort;
use std::test::Fail;

type Cut = SqlKeeper<FileStore<Fuse<Memory>>, Fuse<Memory>>;

const SIZES: Sizes = Sizes {
    small: 4,
    together: 10,
    reserve: 100,
};

/// Which disk fails.
#[derive(Clone, Copy, PartialEq, Eq)]
enum Failing {
    Rows,
    Log,
    Pieces,
    None,
}

/// What is asked, in this order: two of these bodies lie in the file at once, the others are moved there by the third small one.
#[derive(Clone, Copy)]
enum Step {
    Keep(u64, &'static [u8]),
    DropFirst,
}

const STEPS: [Step; 7] = [
    Step::Keep(1, b"one"),
    Step::Keep(2, b"the second body"),
    Step::Keep(3, b"thre"),
    Step::Keep(4, b"four"),
    Step::DropFirst,
    Step::Keep(5, b"the fifth body"),
    Step::Keep(6, b"six"),
];

#[derive(Drop)]
struct Disks {
    database: Files<Fuse<Memory>>,
    bodies: Files<Fuse<Memory>>,
}

fn disk(alloc: Global, is_failing: bool, calls: u64) -> Fuse<Memory> {
    let calls = if is_failing { calls } else { u64::MAX };
    Fuse::new(Memory::new(alloc), calls)
}

fn new_disks(alloc: Global, failing: Failing, calls: u64) -> Disks {
    Disks {
        database: Files {
            log: disk(alloc, failing == Failing::Log, calls),
            db: disk(alloc, failing == Failing::Rows, calls),
        },
        bodies: Files {
            log: disk(alloc, false, calls),
            db: disk(alloc, failing == Failing::Pieces, calls),
        },
    }
}

fn cut(disks: Disks) -> Disks {
    let mut disks = disks;
    disks.database.log.crash();
    disks.database.db.crash();
    disks.bodies.log.crash();
    disks.bodies.db.crash();
    disks
}

// A keeper over the disks, or the disks where the database can't be opened.
fn opened(alloc: Global, disks: Disks) -> Result<Cut, Disks> {
    let Disks { database, bodies } = disks;
    if !database.may_be_used() {
        return Err(Disks { database, bodies });
    }
    match Connection::open_files(alloc, database, Options::new(1)) {
        Ok(connection) => Ok(SqlKeeper::over(alloc, connection, bodies, SIZES)),
        Err((_, left)) => Err(Disks {
            database: left.into_files(),
            bodies,
        }),
    }
}

fn closed(keeper: Cut) -> Disks {
    let (connection, bodies) = keeper.into_parts();
    Disks {
        database: connection.into_store().close(),
        bodies,
    }
}

fn makes(alloc: Global, keeper: &mut Cut, step: Step) -> bool {
    let made = match step {
        Step::Keep(id, bytes) => {
            let id = BlobId::new(id);
            keeper.apply(&Changes::new(alloc), Some(&NewBlob { id, bytes }))
        }
        Step::DropFirst => keeper.sweep(&[BlobId::new(2), BlobId::new(3), BlobId::new(4)]),
    };
    made == Ok(())
}

// How many of the steps were made before one failed.
fn made(alloc: Global, keeper: &mut Cut) -> usize {
    if keeper.load().is_err() {
        return 0;
    }
    STEPS
        .iter()
        .position(|step| !makes(alloc, keeper, *step))
        .unwrap_or(STEPS.len())
}

// Whether what these steps kept is there, but for what a later one may have dropped.
fn keeps(keeper: &mut Cut, count: usize) -> bool {
    STEPS.iter().take(count).all(|step| match step {
        Step::Keep(1, _) | Step::DropFirst => true,
        Step::Keep(id, bytes) =>
            matches!(keeper.blob(BlobId::new(*id)), Ok(Some(kept)) if kept.as_slice() == *bytes),
    })
}

// How many steps are made where the disk fails after so many calls. What they kept outlasts the cut.
fn outlasts(rt: &impl Abort, alloc: Global, failing: Failing, calls: u64) -> Result<usize, Fail> {
    let (count, left) = match opened(alloc, new_disks(alloc, failing, calls)) {
        Ok(keeper) => {
            let mut keeper = keeper;
            (made(alloc, &mut keeper), closed(keeper))
        }
        Err(left) => (0, left),
    };
    let Ok(mut keeper) = opened(alloc, cut(left)) else {
        return Err(Fail::from("it can be opened behind the cut"));
    };
    assert!(rt;
        keeper.load().is_ok(),
        "it is loaded behind the cut after {calls} calls"
    );
    assert!(rt;
        keeps(&mut keeper, count),
        "it has what {count} steps kept, after {calls} calls"
    );
    Ok(count)
}

// Cuts it at each call of the disk. At least so many of them there are.
fn outlasts_all(rt: &impl Abort, alloc: Global, failing: Failing, least: u64) -> Result<(), Fail> {
    for calls in 0..1_000 {
        if outlasts(rt, alloc, failing, calls)? == STEPS.len() {
            assert!(rt; calls >= least, "{calls} calls are made at least");
            return Ok(());
        }
    }
    Err(Fail::from("all steps are made in the end"))
}

#[test]
fn all_is_kept_where_nothing_fails(rt: HostRuntime) -> Result<(), Fail> {
    assert!(rt; outlasts(&rt, rt.alloc(), Failing::None, 0)? == STEPS.len());
    Ok(())
}

#[test]
fn what_was_kept_outlasts_the_bodies(rt: HostRuntime) -> Result<(), Fail> {
    outlasts_all(&rt, rt.alloc(), Failing::Pieces, 10)
}

#[test]
fn what_was_kept_outlasts_the_log(rt: HostRuntime) -> Result<(), Fail> {
    outlasts_all(&rt, rt.alloc(), Failing::Log, 20)
}

#[test]
fn what_was_kept_outlasts_the_database(rt: HostRuntime) -> Result<(), Fail> {
    outlasts_all(&rt, rt.alloc(), Failing::Rows, 2)
}
