//! Rows of uploads and chunks, each rule at its edge.

ghost use Rattle.std.specs.Prelude.{◌≡◌, ◌≤◌, IfOk, length};

use crate::opening::{add_user, meta, told};
use nf_base::{
    BlobId, ChunkRow, Content, Digest, Moment, Name, Path, Piece, Row, UploadRow, UserId,
};
use std::alloc::Global;
use std::process::Abort;
use std::test::Fail;

/// The meta row, two users and their roots. Numbers up to 9,999 were given, and moments up to a million.
fn people(alloc: Global) -> Result<Vec<Row>, Fail> {
    let mut rows = Vec::new(alloc);
    rows.push(meta())?;
    add_user(alloc, &mut rows, 1)?;
    add_user(alloc, &mut rows, 2)?;
    Ok(rows)
}

/// The index of the first row behind them.
const NEXT: usize = 5;

fn upload(alloc: Global, user: u32, dir: &[u8], touched: u64) -> Result<Row, Fail> {
    let mut names = Vec::new(alloc);
    names.push(Name::read(alloc, b"f")?)?;
    Ok(Row::Upload(UploadRow {
        user: UserId::new(user),
        dir: Name::read(alloc, dir)?,
        to: Path::new(names),
        touched: Moment::new(touched),
    }))
}

/// So many bytes in that blob.
fn piece(alloc: Global, blob: u64, size: u32) -> Result<Content, Fail>
    requires some { 1 ≤ size }
    requires few { size ≤ 16777216 }
    ensures { IfOk result (λ content. length content ≡ 1) }
{
    let piece = Piece {
        blob: BlobId::new(blob),
        size,
        digest: Digest::new([7; 32]),
    };
    Ok(Content::new(vec![in alloc; piece]?))
}

fn chunk(alloc: Global, user: u32, dir: &[u8], number: u16, content: Content) -> Result<Row, Fail>
    requires { length content ≤ 1 }
{
    Ok(Row::Chunk(ChunkRow {
        user: UserId::new(user),
        dir: Name::read(alloc, dir)?,
        number,
        content,
    }))
}

/// A chunk with nothing in it.
fn empty(alloc: Global, user: u32, dir: &[u8], number: u16) -> Result<Row, Fail> {
    chunk(alloc, user, dir, number, Content::empty(alloc))
}

/// A chunk of three bytes in that blob.
fn three(alloc: Global, blob: u64) -> Result<Row, Fail> {
    let content = piece(alloc, blob, 3)?;
    chunk(alloc, 1, b"u", 1, content)
}

/// The rule that is broken, and which of some rows behind the users breaks it.
fn told_behind(alloc: Global, more: Vec<Row>) -> Result<(u8, usize), Fail> {
    let mut rows = people(alloc)?;
    for row in more {
        rows.push(row)?;
    }
    let (rule, index) = told(alloc, &rows)?;
    Ok((rule, index.saturating_sub(NEXT)))
}

/// Of each upload its user, its moment, and what is told of it behind one that breaks no rule.
const UPLOADS: [(u32, u64, (u8, usize)); 7] = [
    (2, 0, (9, 0)),
    (2, 1_000_000, (9, 0)),
    (2, 1_000_001, (2, 1)),
    (3, 0, (3, 1)),
    (9_999, 0, (3, 1)),
    (10_000, 0, (2, 1)),
    (0, 0, (2, 1)),
];

#[test]
fn uploads_name_users_and_no_moment_to_come(rt: HostRuntime) -> Result<(), Fail> {
    let alloc = rt.alloc();
    for (user, touched, expected) in UPLOADS {
        let mut more = Vec::new(alloc);
        more.push(upload(alloc, 1, b"u", 0)?)?;
        more.push(upload(alloc, user, b"u", touched)?)?;
        assert!(rt; told_behind(alloc, more)? == expected);
    }
    Ok(())
}

/// Of each chunk its user, its upload, its number, and what is told of it behind the first user's upload `u`.
const CHUNKS: [(u32, &str, u16, (u8, usize)); 10] = [
    (1, "u", 1, (9, 0)),
    (1, "u", 10_000, (9, 0)),
    (1, "u", 0, (7, 1)),
    (1, "u", 10_001, (7, 1)),
    (1, "u", 65_535, (7, 1)),
    (1, "v", 1, (3, 1)),
    (1, "uu", 1, (3, 1)),
    (2, "u", 1, (3, 1)),
    (3, "u", 0, (3, 1)),
    (10_000, "u", 1, (2, 1)),
];

#[test]
fn chunks_name_uploads_and_have_numbers(rt: HostRuntime) -> Result<(), Fail> {
    let alloc = rt.alloc();
    for (user, dir, number, expected) in CHUNKS {
        let mut more = Vec::new(alloc);
        more.push(upload(alloc, 1, b"u", 0)?)?;
        more.push(empty(alloc, user, dir.as_bytes(), number)?)?;
        assert!(rt; told_behind(alloc, more)? == expected);
    }
    Ok(())
}

#[test]
fn blobs_of_chunks_were_given(rt: HostRuntime) -> Result<(), Fail> {
    let alloc = rt.alloc();
    for (blob, expected) in [(1, (9, 0)), (9_999, (9, 0)), (0, (2, 1)), (10_000, (2, 1))] {
        let mut more = Vec::new(alloc);
        more.push(upload(alloc, 1, b"u", 0)?)?;
        more.push(three(alloc, blob)?)?;
        assert!(rt; told_behind(alloc, more)? == expected);
    }
    Ok(())
}

/// Each user may have an upload of that name, and a chunk of each number; but only one.
#[test]
fn keys_come_once(rt: HostRuntime) -> Result<(), Fail> {
    let alloc = rt.alloc();
    let mut more = Vec::new(alloc);
    more.push(upload(alloc, 1, b"u", 0)?)?;
    more.push(upload(alloc, 2, b"u", 0)?)?;
    more.push(empty(alloc, 1, b"u", 1)?)?;
    more.push(empty(alloc, 2, b"u", 1)?)?;
    more.push(three(alloc, 1)?)?;
    assert!(rt; told_behind(alloc, more)? == (1, 2));
    let mut more = Vec::new(alloc);
    more.push(upload(alloc, 2, b"u", 0)?)?;
    more.push(upload(alloc, 1, b"u", 0)?)?;
    more.push(upload(alloc, 2, b"u", 9)?)?;
    assert!(rt; told_behind(alloc, more)? == (1, 0));
    Ok(())
}

/// So many uploads of a user.
fn add_uploads(alloc: Global, rows: &mut Vec<Row>, user: u32, count: u32) -> Result<(), Fail> {
    for number in 0..count {
        let dir = format!(in alloc; "u{number}")?;
        rows.push(upload(alloc, user, dir.as_bytes(), 0)?)?;
    }
    Ok(())
}

#[test]
fn uploads_of_a_user_are_64(rt: HostRuntime) -> Result<(), Fail> {
    let alloc = rt.alloc();
    let mut rows = people(alloc)?;
    add_uploads(alloc, &mut rows, 2, 64)?;
    add_uploads(alloc, &mut rows, 1, 65)?;
    assert!(rt; told(alloc, &rows)? == (7, NEXT + 64));
    rows.pop();
    assert!(rt; told(alloc, &rows)? == (9, 0));
    Ok(())
}

/// 64 chunks of 16 MiB each.
fn add_gibibyte(alloc: Global, rows: &mut Vec<Row>) -> Result<(), Fail> {
    for number in 1..=64u16 {
        let content = piece(alloc, 1, 16_777_216)?;
        rows.push(chunk(alloc, 1, b"u", number, content)?)?;
    }
    Ok(())
}

/// An empty chunk isn't among those that are too much, nor is another user's.
#[test]
fn chunks_of_a_user_have_a_gibibyte(rt: HostRuntime) -> Result<(), Fail> {
    let alloc = rt.alloc();
    let mut rows = people(alloc)?;
    rows.push(upload(alloc, 1, b"u", 0)?)?;
    rows.push(upload(alloc, 1, b"v", 0)?)?;
    rows.push(upload(alloc, 2, b"u", 0)?)?;
    rows.push(empty(alloc, 1, b"v", 1)?)?;
    let others = piece(alloc, 1, 1)?;
    rows.push(chunk(alloc, 2, b"u", 1, others)?)?;
    add_gibibyte(alloc, &mut rows)?;
    assert!(rt; told(alloc, &rows)? == (9, 0));
    let one = piece(alloc, 1, 1)?;
    rows.push(chunk(alloc, 1, b"v", 2, one)?)?;
    assert!(rt; told(alloc, &rows)? == (7, NEXT + 5));
    Ok(())
}
