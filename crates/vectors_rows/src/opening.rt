//! Lists of rows that no keeper has, which has each key once and in its order; and such as are too long for a case.

use nf_base::{
    BlobId, Content, Digest, GroupId, GroupRow, ItemRow, MetaRow, Moment, Name, NodeId, NodeKind,
    NodeRow, Piece, Place, Row, ShareId, TokenRow, UserId, UserRow, VersionRow,
};
use nf_opening::{Broken, Loaded, SiteFault, judge};
use std::alloc::Global;
use std::process::Abort;
use std::test::Fail;

/// Numbers up to 9,999 were given, and moments up to a million.
pub(crate) fn meta() -> Row {
    Row::Meta(MetaRow {
        next_user: UserId::new(10_000),
        next_group: GroupId::new(10_000),
        next_node: NodeId::new(10_000),
        next_share: ShareId::new(1),
        next_blob: BlobId::new(10_000),
        last: Moment::new(1_000_000),
    })
}

fn user(alloc: Global, id: u32, name: &[u8], quota: u64, root: u64) -> Result<Row, Fail> {
    Ok(Row::User(UserRow {
        id: UserId::new(id),
        name: Name::read(alloc, name)?,
        quota,
        root: NodeId::new(root),
    }))
}

/// The largest quota.
const ANY: u64 = 1_099_511_627_776;

fn folder(alloc: Global, id: u64, owner: u32, place: Place, name: &[u8]) -> Result<Row, Fail> {
    Ok(Row::Node(NodeRow {
        id: NodeId::new(id),
        owner: UserId::new(owner),
        place,
        name: Name::read(alloc, name)?,
        kind: NodeKind::Folder,
        content: Content::empty(alloc),
        changed: Moment::new(5),
    }))
}

/// A folder of the first user in another.
fn inside(alloc: Global, id: u64, parent: u64, name: &[u8]) -> Result<Row, Fail> {
    folder(alloc, id, 1, Place::Inside(NodeId::new(parent)), name)
}

/// A file of the first user, with nothing in it.
fn file(alloc: Global) -> Result<Row, Fail> {
    Ok(Row::Node(NodeRow {
        id: NodeId::new(2),
        owner: UserId::new(1),
        place: Place::Inside(NodeId::new(1)),
        name: Name::read(alloc, b"f")?,
        kind: NodeKind::File,
        content: Content::empty(alloc),
        changed: Moment::new(5),
    }))
}

/// Three bytes.
fn three(alloc: Global) -> Result<Content, Fail> {
    let piece = Piece {
        blob: BlobId::new(1),
        size: 3,
        digest: Digest::new([7; 32]),
    };
    Ok(Content::new(vec![in alloc; piece]?))
}

/// Three bytes that it had from that moment on.
fn version(alloc: Global, at: u64) -> Result<Row, Fail> {
    Ok(Row::Version(VersionRow {
        node: NodeId::new(2),
        at: Moment::new(at),
        content: three(alloc)?,
    }))
}

/// A file of the first user, with three bytes.
fn filled(alloc: Global, id: u64, place: Place) -> Result<Row, Fail> {
    Ok(Row::Node(NodeRow {
        id: NodeId::new(id),
        owner: UserId::new(1),
        place,
        name: Name::read(alloc, b"f")?,
        kind: NodeKind::File,
        content: three(alloc)?,
        changed: Moment::new(5),
    }))
}

/// An item of the first user, which was in the root.
fn item(alloc: Global, node: u64) -> Result<Row, Fail> {
    Ok(Row::Item(ItemRow {
        node: NodeId::new(node),
        owner: UserId::new(1),
        name: Name::read(alloc, b"f")?,
        from: NodeId::new(1),
        at: Moment::new(5),
    }))
}

fn token(user: u32) -> Row {
    Row::Token(TokenRow {
        digest: Digest::new([7; 32]),
        user: UserId::new(user),
    })
}

fn group(alloc: Global, name: &[u8]) -> Result<Row, Fail> {
    Ok(Row::Group(GroupRow {
        id: GroupId::new(1),
        name: Name::read(alloc, name)?,
    }))
}

/// What a row is made of.
#[derive(Clone, Copy)]
enum Sketch {
    Meta,
    /// Number, name and root.
    User(u32, &'static str, u64),
    /// The first user, with that quota.
    Quota(u64),
    Group(&'static str),
    /// The root of the first user.
    Root,
    /// Number, parent and name.
    Inside(u64, u64, &'static str),
    File,
    /// Of the file, with its moment.
    Version(u64),
    /// Number of a folder in the trash.
    Trashed(u64),
    /// Number and parent of a file.
    FilledIn(u64, u64),
    /// Number of a file in the trash.
    Filled(u64),
    /// Of that node.
    Item(u64),
    Token(u32),
}

fn row(alloc: Global, sketch: Sketch) -> Result<Row, Fail> {
    match sketch {
        Sketch::Meta => Ok(meta()),
        Sketch::User(id, name, root) => user(alloc, id, name.as_bytes(), ANY, root),
        Sketch::Quota(quota) => user(alloc, 1, b"ann", quota, 1),
        Sketch::Group(name) => group(alloc, name.as_bytes()),
        Sketch::Root => folder(alloc, 1, 1, Place::Root, b"ann"),
        Sketch::Inside(id, parent, name) => inside(alloc, id, parent, name.as_bytes()),
        Sketch::File => file(alloc),
        Sketch::Version(at) => version(alloc, at),
        Sketch::Trashed(id) => folder(alloc, id, 1, Place::Trash, b"t"),
        Sketch::FilledIn(id, parent) => filled(alloc, id, Place::Inside(NodeId::new(parent))),
        Sketch::Filled(id) => filled(alloc, id, Place::Trash),
        Sketch::Item(node) => item(alloc, node),
        Sketch::Token(user) => Ok(token(user)),
    }
}

fn rows_of(alloc: Global, sketches: &[Sketch]) -> Result<Vec<Row>, Fail> {
    let mut rows = Vec::new(alloc);
    for sketch in sketches {
        rows.push(row(alloc, *sketch)?)?;
    }
    Ok(rows)
}

/// The meta row, the first user and that user's root.
const FIRST: [Sketch; 3] = [Sketch::Meta, Sketch::User(1, "ann", 1), Sketch::Root];

/// The rule that is broken and the row that breaks it, or 9 where none is.
pub(crate) fn told(alloc: Global, rows: &[Row]) -> Result<(u8, usize), Fail> {
    match judge(alloc, rows) {
        Ok(_) => Ok((9, 0)),
        Err(SiteFault::Broken(Broken { rule, index })) => Ok((rule, index)),
        Err(SiteFault::Memory) => Err("no memory")?,
    }
}

/// Lists, each with the rule that is broken and the row that breaks it: none at all, two in another order, and between them one with a key
/// that comes twice.
const LISTS: [(&[Sketch], (u8, usize)); 4] = [
    (&[], (1, 0)),
    (
        &[
            Sketch::Inside(3, 2, "x"),
            Sketch::Root,
            Sketch::Group("ann"),
            Sketch::Inside(2, 1, "x"),
            Sketch::User(1, "ann", 1),
            Sketch::Meta,
        ],
        (9, 0),
    ),
    (
        &[
            Sketch::Meta,
            Sketch::User(1, "ann", 1),
            Sketch::Root,
            Sketch::Token(1),
            Sketch::Token(2),
        ],
        (1, 3),
    ),
    (
        &[
            Sketch::Meta,
            Sketch::User(1, "ann", 1),
            Sketch::Root,
            Sketch::User(2, "ben", 1),
        ],
        (5, 3),
    ),
];

#[test]
fn lists_that_no_keeper_has(rt: HostRuntime) -> Result<(), Fail> {
    let alloc = rt.alloc();
    for (sketches, expected) in LISTS {
        let rows = rows_of(alloc, sketches)?;
        assert!(rt; told(alloc, &rows)? == expected);
    }
    Ok(())
}

/// A user and a root of that number.
pub(crate) fn add_user(alloc: Global, rows: &mut Vec<Row>, id: u32) -> Result<(), Fail> {
    let name = format!(in alloc; "u{id}")?;
    let root = u64::from(id);
    rows.push(user(alloc, id, name.as_bytes(), ANY, root)?)?;
    rows.push(folder(alloc, root, id, Place::Root, name.as_bytes())?)?;
    Ok(())
}

#[test]
fn users_are_4096(rt: HostRuntime) -> Result<(), Fail> {
    let alloc = rt.alloc();
    let mut rows = rows_of(alloc, &FIRST)?;
    for id in 2..=4_097u32 {
        add_user(alloc, &mut rows, id)?;
    }
    assert!(rt; told(alloc, &rows)? == (7, 1));
    rows.pop();
    rows.pop();
    assert!(rt; told(alloc, &rows)? == (9, 0));
    Ok(())
}

#[test]
fn versions_are_262144(rt: HostRuntime) -> Result<(), Fail> {
    let alloc = rt.alloc();
    let first = [Sketch::Meta, Sketch::Quota(ANY), Sketch::Root, Sketch::File];
    let mut rows = rows_of(alloc, &first)?;
    for at in 0..=262_144u64 {
        rows.push(version(alloc, at)?)?;
    }
    assert!(rt; told(alloc, &rows)? == (7, 4));
    rows.pop();
    assert!(rt; told(alloc, &rows)? == (9, 0));
    Ok(())
}

/// Two of three bytes each are half of twelve.
#[test]
fn versions_are_within_half_of_the_quota(rt: HostRuntime) -> Result<(), Fail> {
    let alloc = rt.alloc();
    for (quota, expected) in [(12, (9, 0)), (11, (8, 4))] {
        let sketches = [
            Sketch::Meta,
            Sketch::Quota(quota),
            Sketch::Root,
            Sketch::File,
            Sketch::Version(1),
            Sketch::Version(2),
        ];
        let rows = rows_of(alloc, &sketches)?;
        assert!(rt; told(alloc, &rows)? == expected);
    }
    Ok(())
}

/// Two items of three bytes each are half of twelve; what is in a folder of the trash counts, though it stands before the folder.
#[test]
fn trashes_are_within_half_of_the_quota(rt: HostRuntime) -> Result<(), Fail> {
    let alloc = rt.alloc();
    for (quota, expected) in [(12, (9, 0)), (11, (8, 6))] {
        let sketches = [
            Sketch::Meta,
            Sketch::Quota(quota),
            Sketch::Root,
            Sketch::FilledIn(2, 3),
            Sketch::Trashed(3),
            Sketch::Filled(4),
            Sketch::Item(3),
            Sketch::Item(4),
        ];
        let rows = rows_of(alloc, &sketches)?;
        assert!(rt; told(alloc, &rows)? == expected);
    }
    Ok(())
}

#[test]
fn loads_in_order(rt: HostRuntime) -> Result<(), Fail> {
    let alloc = rt.alloc();
    let rows = rows_of(
        alloc,
        &[
            Sketch::Inside(3, 1, "x"),
            Sketch::Inside(2, 1, "y"),
            Sketch::Meta,
            Sketch::Inside(3, 1, "z"),
        ],
    )?;
    let loaded = Loaded::of(alloc, &rows)?;
    assert_eq!(rt; loaded.meta.next_user.number(), 10_000);
    match loaded.nodes.as_slice() {
        [first, second] => {
            assert!(rt; first.id.number() == 2);
            assert!(rt; second.name.as_bytes() == b"z".as_slice());
        }
        _ => return Err("two nodes")?,
    }
    Ok(())
}
