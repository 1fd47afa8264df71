//! The demonstration rows.

ghost use Rattle.std.specs.Prelude.{◌≡◌, ◌++◌, IfOk, OnOk};
ghost use Rattle.nf_base.specs.declared.rows.Row.TheVariants as row;
ghost use Rattle.nf_site.specs.Demo.{demo_groups, demo_nodes, demo_rows, demo_users, hello_file, root, token, user};

use nf_base::{
    BlobId, Content, Digest, GroupId, GroupRow, MemberRow, MetaRow, Moment, Name, NodeId, NodeKind,
    NodeRow, Piece, Place, Row, RowList, ShareId, TokenRow, UserId, UserRow,
};
use std::alloc::{AllocError, Global};

/// Alice, bob and carol with a token each, two groups, and one file of alice's.
pub fn demo_rows(alloc: Global) -> Result<RowList, AllocError>
    ensures { IfOk result (λ rows. rows ≡ demo_rows) }
{
    let mut rows = RowList::new(alloc);
    rows.push(Row::Meta(MetaRow {
        next_user: UserId::new(4),
        next_group: GroupId::new(3),
        next_node: NodeId::new(5),
        next_share: ShareId::new(1),
        next_blob: BlobId::new(2),
        last: Moment::new(0),
    }))?;
    push_users(alloc, &mut rows)?;
    push_groups(alloc, &mut rows)?;
    push_nodes(alloc, &mut rows)?;
    Ok(rows)
}

fn push_users(alloc: Global, rows: &mut RowList) -> Result<(), AllocError>
    ensures { OnOk result (rows.new ≡ rows.old ++ demo_users) }
{
    rows.push(user(alloc, 1, "alice")?)?;
    rows.push(user(alloc, 2, "bob")?)?;
    rows.push(user(alloc, 3, "carol")?)?;
    rows.push(token(1, "alice-1"))?;
    rows.push(token(2, "bob-1"))?;
    rows.push(token(3, "carol-1"))
}

fn push_groups(alloc: Global, rows: &mut RowList) -> Result<(), AllocError>
    ensures { OnOk result (rows.new ≡ rows.old ++ demo_groups) }
{
    rows.push(group(alloc, 1, "admin")?)?;
    rows.push(group(alloc, 2, "board")?)?;
    rows.push(Row::Member(MemberRow {
        group: GroupId::new(1),
        user: UserId::new(1),
    }))
}

fn push_nodes(alloc: Global, rows: &mut RowList) -> Result<(), AllocError>
    ensures { OnOk result (rows.new ≡ rows.old ++ demo_nodes) }
{
    rows.push(root(alloc, 1, "alice")?)?;
    rows.push(root(alloc, 2, "bob")?)?;
    rows.push(root(alloc, 3, "carol")?)?;
    rows.push(hello_file(alloc)?)
}

// The texts below are names, so only memory can be wanting.
fn name(alloc: Global, text: &str) -> Result<Name, AllocError>
    ensures { IfOk result (λ name. name ≡ text.now) }
{
    match Name::read(alloc, text.as_bytes()) {
        Ok(name) => Ok(name),
        Err(_) => Err(AllocError),
    }
}

fn user(alloc: Global, id: u32, text: &str) -> Result<Row, AllocError>
    ensures { IfOk result (λ row. row ≡ user id text.now) }
{
    Ok(Row::User(UserRow {
        id: UserId::new(id),
        name: name(alloc, text)?,
        quota: 1_073_741_824,
        root: NodeId::new(u64::from(id)),
    }))
}

fn token(id: u32, secret: &str) -> Row
    ensures { result ≡ token id secret.now }
{
    Row::Token(TokenRow {
        digest: Digest::of(secret.as_bytes()),
        user: UserId::new(id),
    })
}

fn group(alloc: Global, id: u32, text: &str) -> Result<Row, AllocError>
    ensures { IfOk result (λ made. made ≡ row.Group (record { id = id; name = text.now })) }
{
    Ok(Row::Group(GroupRow {
        id: GroupId::new(id),
        name: name(alloc, text)?,
    }))
}

fn root(alloc: Global, id: u32, text: &str) -> Result<Row, AllocError>
    ensures { IfOk result (λ row. row ≡ root id text.now) }
{
    Ok(Row::Node(NodeRow {
        id: NodeId::new(u64::from(id)),
        owner: UserId::new(id),
        place: Place::Root,
        name: name(alloc, text)?,
        kind: NodeKind::Folder,
        content: Content::empty(alloc),
        changed: Moment::new(0),
    }))
}

fn hello_file(alloc: Global) -> Result<Row, AllocError>
    ensures { IfOk result (λ row. row ≡ hello_file) }
{
    let piece = Piece {
        blob: BlobId::new(1),
        size: 6,
        digest: Digest::of(b"hello\n"),
    };
    Ok(Row::Node(NodeRow {
        id: NodeId::new(4),
        owner: UserId::new(1),
        place: Place::Inside(NodeId::new(1)),
        name: name(alloc, "hello.txt")?,
        kind: NodeKind::File,
        content: Content::new(vec![in alloc; piece]?),
        changed: Moment::new(0),
    }))
}
