//! The rows that a store begins with.

ghost use Rattle.std.specs.Prelude.{◌≡◌, IfOk, codes};
ghost use Rattle.nf_base.specs.declared.rows.Row.TheVariants as row;
ghost use Rattle.nf_command.specs.First.{first_meta, first_root, first_rows};

use crate::Init;
use nf_base::{
    BlobId, Content, Digest, GroupId, GroupRow, MemberRow, MetaRow, Moment, Name, NodeId, NodeKind,
    NodeRow, Place, Row, RowList, ShareId, TokenRow, UserId, UserRow,
};
use std::alloc::{AllocError, Global};

/// One administrator, with a token, a quota and an empty root.
pub fn init_rows(alloc: Global, init: &Init) -> Result<RowList, AllocError>
    ensures { IfOk result (λ rows. rows ≡ first_rows init.now.name init.now.token init.now.quota) }
{
    let mut rows = RowList::new(alloc);
    rows.push(meta())?;
    rows.push(Row::User(UserRow {
        id: UserId::new(1),
        name: init.name.copy()?,
        quota: init.quota,
        root: NodeId::new(1),
    }))?;
    rows.push(token(init.token))?;
    rows.push(Row::Group(GroupRow {
        id: GroupId::new(1),
        name: admin(alloc)?,
    }))?;
    rows.push(Row::Member(MemberRow {
        group: GroupId::new(1),
        user: UserId::new(1),
    }))?;
    rows.push(root(alloc, &init.name)?)?;
    Ok(rows)
}

// The numbers behind the ones that are given here.
fn meta() -> Row
    ensures { result ≡ first_meta }
{
    Row::Meta(MetaRow {
        next_user: UserId::new(2),
        next_group: GroupId::new(2),
        next_node: NodeId::new(2),
        next_share: ShareId::new(1),
        next_blob: BlobId::new(1),
        last: Moment::new(0),
    })
}

fn token(digest: Digest) -> Row
    ensures { result ≡ row.Token (record { digest = digest; user = 1 }) }
{
    Row::Token(TokenRow {
        digest,
        user: UserId::new(1),
    })
}

// The text is a name, so only memory can be wanting.
fn admin(alloc: Global) -> Result<Name, AllocError>
    ensures { IfOk result (λ name. name ≡ codes "admin") }
{
    match Name::read(alloc, b"admin") {
        Ok(name) => Ok(name),
        Err(_) => Err(AllocError),
    }
}

fn root(alloc: Global, name: &Name) -> Result<Row, AllocError>
    ensures { IfOk result (λ row. row ≡ first_root name.now) }
{
    Ok(Row::Node(NodeRow {
        id: NodeId::new(1),
        owner: UserId::new(1),
        place: Place::Root,
        name: name.copy()?,
        kind: NodeKind::Folder,
        content: Content::empty(alloc),
        changed: Moment::new(0),
    }))
}
