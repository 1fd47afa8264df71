//! Rows as bytes that were written by hand from the table of the kinds.

ghost use Rattle.std.specs.Prelude.{◌≤◌, length, IfOk};

use nf_base::{
    BlobId, ChunkRow, Content, Digest, GroupId, MemberRow, Moment, Name, NodeId, NodeKind, NodeRow,
    Perms, Piece, Place, Row, ShareId, ShareKind, ShareRow, UserId,
};
use nf_rows::{RawKey, RawRow, read_raw, write, write_key};
use std::alloc::Global;
use std::process::Abort;
use std::test::Fail;

/// Bytes that were written by hand from the table of the kinds are read as the row, and the row is written as them.
fn is_row(
    rt: &impl Abort,
    alloc: Global,
    kind: u8,
    key: &[u8],
    body: &[u8],
    row: &Row,
) -> Result<(), Fail> {
    let raw = raw_of(alloc, row)?;
    assert!(rt; raw.kind() == kind);
    assert!(rt; raw.key() == key);
    assert!(rt; raw.body() == body);
    assert!(rt; read_raw(alloc, &raw)? == *row);
    let key_of = raw_key_of(alloc, row)?;
    assert!(rt; key_of.kind() == kind);
    assert!(rt; key_of.bytes() == key);
    Ok(())
}

fn raw_of(alloc: Global, row: &Row) -> Result<RawRow, Fail> {
    let mut raw = RawRow::new(alloc);
    write(row, &mut raw)?;
    Ok(raw.copy()?)
}

fn raw_key_of(alloc: Global, row: &Row) -> Result<RawKey, Fail> {
    let mut raw_key = RawKey::new(alloc);
    write_key(&row.key()?, &mut raw_key)?;
    Ok(raw_key)
}

fn member() -> Row {
    Row::Member(MemberRow {
        group: GroupId::new(1),
        user: UserId::new(1),
    })
}

fn link(alloc: Global) -> Result<Row, Fail> {
    let perms = Perms::read(17).ok_or("below 32")?;
    Ok(Row::Share(ShareRow {
        id: ShareId::new(1),
        kind: ShareKind::Link(Name::read(alloc, b"aa")?),
        node: NodeId::new(3),
        owner: UserId::new(4),
        initiator: UserId::new(5),
        parent: None,
        perms,
        until: Some(Moment::new(258)),
        ended: true,
        made: Moment::new(7),
    }))
}

/// One piece.
fn content(alloc: Global) -> Result<Content, Fail>
    ensures { IfOk result (λ content. length content ≤ 1) }
{
    let piece = Piece {
        blob: BlobId::new(9),
        size: 16_777_216,
        digest: Digest::new([b'x'; 32]),
    };
    Ok(Content::new(vec![in alloc; piece]?))
}

fn file(alloc: Global) -> Result<Row, Fail> {
    let name = Name::read(alloc, b"ab")?;
    Ok(Row::Node(NodeRow {
        id: NodeId::new(7),
        owner: UserId::new(2),
        place: Place::Inside(NodeId::new(5)),
        name,
        kind: NodeKind::File,
        content: content(alloc)?,
        changed: Moment::new(257),
    }))
}

fn chunk(alloc: Global) -> Result<Row, Fail> {
    let dir = Name::read(alloc, b"d")?;
    Ok(Row::Chunk(ChunkRow {
        user: UserId::new(1),
        dir,
        number: 258,
        content: content(alloc)?,
    }))
}

#[test]
fn a_member_is_row_5(rt: HostRuntime) -> Result<(), Fail> {
    let key = b"\0\0\0\x01\0\0\0\x01";
    is_row(&rt, rt.alloc(), 5, key, b"\x01", &member())
}

#[test]
fn a_link_is_row_7(rt: HostRuntime) -> Result<(), Fail> {
    let key = b"\0\0\0\0\0\0\0\x01";
    let body =
        b"\x01\x03\x02aa\0\0\0\0\0\0\0\x03\0\0\0\x04\0\0\0\x05\0\x11\x01\0\0\0\0\0\0\x01\x02\x01\0\0\0\0\0\0\0\x07";
    is_row(&rt, rt.alloc(), 7, key, body, &link(rt.alloc())?)
}

#[test]
fn a_file_is_row_6(rt: HostRuntime) -> Result<(), Fail> {
    let key = b"\0\0\0\0\0\0\0\x07";
    let body =
        b"\x01\0\0\0\x02\x01\0\0\0\0\0\0\0\x05\x02ab\x01\0\x01\0\0\0\0\0\0\0\x09\x01\0\0\0xxxxxxxxxxxxxxxxxxxxxxxxxxxxxxxx\0\0\0\0\0\0\x01\x01";
    is_row(&rt, rt.alloc(), 6, key, body, &file(rt.alloc())?)
}

#[test]
fn a_chunk_is_row_12(rt: HostRuntime) -> Result<(), Fail> {
    let key = b"\0\0\0\x01\x01d\x01\x02";
    let body = b"\x01\0\x01\0\0\0\0\0\0\0\x09\x01\0\0\0xxxxxxxxxxxxxxxxxxxxxxxxxxxxxxxx";
    is_row(&rt, rt.alloc(), 12, key, body, &chunk(rt.alloc())?)
}
