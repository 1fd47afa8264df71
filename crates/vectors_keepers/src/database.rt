//! Each call over a database in memory, refusals among them.

use crate::calls::{drops, has, puts, stores, tells};
use nf_base::BlobId;
use nf_keeper::{KeepFault, Keeper};
use nf_keeper_sql::{Sizes, SqlKeeper};
use sqlite::{Connection, MemStore};
use sqlite_disk::{Files, Memory};
use std::alloc::Global;
use std::process::Abort;
use std::test::Fail;

// A body of five bytes lies in the file, and two of three bytes are too many for the database.
const SIZES: Sizes = Sizes {
    small: 4,
    together: 5,
    reserve: 100,
};

fn keeper_after(alloc: Global, sql: &str) -> Result<SqlKeeper<MemStore, Memory>, Fail> {
    let mut connection = Connection::open_in_memory(alloc)?;
    let files = Files {
        log: Memory::new(alloc),
        db: Memory::new(alloc),
    };
    match connection.execute_batch(sql) {
        Ok(()) => Ok(SqlKeeper::over(alloc, connection, files, SIZES)),
        Err(_) => Err(Fail::from("refused")),
    }
}

fn keeps_rows<K: Keeper>(rt: &impl Abort, alloc: Global, keeper: &mut K) -> Result<(), Fail> {
    assert!(rt; tells(alloc, keeper, &[])?);
    assert!(rt; stores(alloc, keeper, &[2, 3, 1, 2], 7, b"seven")?);
    assert!(rt; stores(alloc, keeper, &[], u64::MAX, b"last")?);
    assert!(rt; tells(alloc, keeper, &[(1, 1), (2, 1), (3, 1)])?);
    assert!(rt; keeper.apply(&drops(alloc, 2)?, None) == Ok(()));
    assert!(rt; tells(alloc, keeper, &[(1, 1), (3, 1)])?);
    Ok(())
}

fn keeps_blobs<K: Keeper>(rt: &impl Abort, alloc: Global, keeper: &mut K) -> Result<(), Fail> {
    assert!(rt; has(keeper, 7, Some(b"seven")));
    assert!(rt; has(keeper, 8, None));
    assert!(rt; stores(alloc, keeper, &[], 7, b"other")?);
    assert!(rt; keeper.sweep(&[BlobId::new(9), BlobId::new(7)]) == Ok(()));
    assert!(rt; has(keeper, 7, Some(b"other")));
    assert!(rt; has(keeper, u64::MAX, None));
    Ok(())
}

#[test]
fn a_database_keeps_what_is_applied(rt: HostRuntime) -> Result<(), Fail> {
    let mut keeper = keeper_after(rt.alloc(), "")?;
    keeps_rows(&rt, rt.alloc(), &mut keeper)?;
    keeps_blobs(&rt, rt.alloc(), &mut keeper)?;
    assert!(rt; keeper.faults() == 0);
    Ok(())
}

const SHORT_PIECES: &str =
    "CREATE TABLE pieces (id INTEGER PRIMARY KEY, body BLOB NOT NULL CHECK (length(body) < 3)) STRICT";

// The first blob is too long for its table.
fn keeps_what_is_short<K: Keeper>(
    rt: &impl Abort,
    alloc: Global,
    keeper: &mut K,
) -> Result<(), Fail> {
    assert!(rt; tells(alloc, keeper, &[])?);
    assert!(rt; !stores(alloc, keeper, &[1], 7, b"four")?);
    assert!(rt; tells(alloc, keeper, &[])?);
    assert!(rt; stores(alloc, keeper, &[1], 7, b"7")?);
    assert!(rt; tells(alloc, keeper, &[(1, 1)])?);
    Ok(())
}

#[test]
fn a_change_is_made_whole_or_not_at_all(rt: HostRuntime) -> Result<(), Fail> {
    let mut keeper = keeper_after(rt.alloc(), SHORT_PIECES)?;
    keeps_what_is_short(&rt, rt.alloc(), &mut keeper)?;
    assert!(rt; keeper.faults() == 1);
    Ok(())
}

const OTHER_TABLES: [&str; 4] = [
    "CREATE TABLE rows (kind INTEGER) STRICT",
    "CREATE TABLE rows (kind INTEGER, key BLOB, body BLOB) STRICT; INSERT INTO rows VALUES (1, x'01', x''), (1, x'01', x'')",
    "CREATE TABLE rows (kind INTEGER, key BLOB, body BLOB) STRICT; INSERT INTO rows VALUES (256, x'01', x'')",
    "BEGIN",
];

#[test]
fn other_tables_are_refused(rt: HostRuntime) -> Result<(), Fail> {
    let changes = puts(rt.alloc(), &[1])?;
    for sql in OTHER_TABLES {
        let mut keeper = keeper_after(rt.alloc(), sql)?;
        assert!(rt; keeper.load().is_err(), "at {sql}");
        assert!(rt; !keeper.is_reserve_given_up(), "at {sql}");
        assert!(rt; keeper.faults() == 1);
        assert!(rt; keeper.apply(&changes, None) == Err(KeepFault::Failed));
        assert!(rt; keeper.faults() == 2);
    }
    Ok(())
}
