//! Versions at their limit and one past, over rows that a loop makes.

use crate::limits::push;
use crate::seats::{Act, ask, start};
use nf_base::{
    BlobId, Content, Digest, GroupId, MetaRow, Moment, Name, NodeId, NodeKind, NodeRow, Piece,
    Place, Row, ShareId, TokenRow, UserId, UserRow, VersionRow,
};
use nf_desk::Opening;
use nf_keeper::{BlobList, MemKeeper, RawRows};
use nf_words::{Denial, Limit};
use std::alloc::{AllocError, Global};
use std::test::Fail;

// One less than there may be.
const VERSIONS: u64 = 262_143;

/// Three bytes, which nothing reads.
fn content(alloc: Global) -> Result<Content, AllocError> {
    let piece = Piece {
        blob: BlobId::new(1),
        size: 3,
        digest: Digest::new([7; 32]),
    };
    Ok(Content::new(vec![in alloc; piece]?))
}

fn node(alloc: Global, id: u64, place: Place, name: &str) -> Result<NodeRow, AllocError> {
    let is_root = matches!(place, Place::Root);
    Ok(NodeRow {
        id: NodeId::new(id),
        owner: UserId::new(1),
        place,
        name: Name::read(alloc, name.as_bytes()).map_err(|_| AllocError)?,
        kind: if is_root {
            NodeKind::Folder
        } else {
            NodeKind::File
        },
        content: if is_root {
            Content::empty(alloc)
        } else {
            content(alloc)?
        },
        changed: Moment::new(0),
    })
}

/// A user with two files, of which the second has the versions.
fn push_files(alloc: Global, raws: &mut RawRows) -> Result<(), AllocError> {
    let user = UserId::new(1);
    let root = NodeId::new(1);
    let row = UserRow {
        id: user,
        name: Name::read(alloc, b"alice").map_err(|_| AllocError)?,
        quota: 1_000_000_000,
        root,
    };
    push(alloc, raws, &Row::User(row))?;
    let digest = Digest::of(b"alice-1");
    push(alloc, raws, &Row::Token(TokenRow { digest, user }))?;
    push(
        alloc,
        raws,
        &Row::Node(node(alloc, 1, Place::Root, "alice")?),
    )?;
    for (id, name) in [(2, "one"), (3, "other")] {
        push(
            alloc,
            raws,
            &Row::Node(node(alloc, id, Place::Inside(root), name)?),
        )?;
    }
    Ok(())
}

fn push_all(alloc: Global, raws: &mut RawRows) -> Result<(), AllocError> {
    push(
        alloc,
        raws,
        &Row::Meta(MetaRow {
            next_user: UserId::new(2),
            next_group: GroupId::new(1),
            next_node: NodeId::new(4),
            next_share: ShareId::new(1),
            next_blob: BlobId::new(2),
            last: Moment::new(VERSIONS),
        }),
    )?;
    push_files(alloc, raws)?;
    for at in 0..VERSIONS {
        let row = VersionRow {
            node: NodeId::new(3),
            at: Moment::new(at),
            content: content(alloc)?,
        };
        push(alloc, raws, &Row::Version(row))?;
    }
    Ok(())
}

/// What the first PUT replaces is the last version that there may be, so there is no second.
#[test]
fn versions_are_as_many_as_may_be(rt: HostRuntime) -> Result<(), Fail> {
    let alloc = rt.alloc();
    let mut raws = RawRows::new(alloc);
    push_all(alloc, &mut raws)?;
    let keeper = MemKeeper::holding(alloc, raws, BlobList::new(alloc), &[])?;
    let started = start(alloc, keeper, Opening::Kept);
    let (shared, mut seat) = started.ok().ok_or("no hub")?;
    let stored = ask(&rt, &shared, (0, 0), Act::Put, &["one"], &mut seat);
    assert!(rt; stored.is_ok());
    let refused = ask(&rt, &shared, (0, 0), Act::Put, &["one"], &mut seat);
    assert!(rt; matches!(refused, Err(Denial::Limit(Limit::Versions))));
    Ok(())
}
