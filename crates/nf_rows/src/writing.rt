//! Writing rows.
#![tactic(auto, unfolding(crate::specs::Spelling::spelled))]

ghost use Rattle.std.specs.Prelude.{◌≡◌, ◌++◌, ◌∷◌, [], OnOk};
ghost use Rattle.nf_base.specs.declared.limits.TheConstants.{MAX_PIECES};
ghost use Rattle.nf_base.specs.Kept.{IsPlain, IsSized};
ghost use Rattle.nf_rows.specs.Spelling.{Fits, FitsKey, FitsPiece, Puts, PutsAll, body_values, key_spelling, key_values, kind_of, spelled, spelling_of};
ghost use Rattle.nf_rows.specs.Spelling as value;

use crate::parts::FORMAT;
use crate::raw::{RawKey, RawRow};
use nf_base::{
    Content, Digest, Moment, Name, NodeKind, Path, Perms, Piece, Place, Row, RowKey, ShareId,
    ShareKind,
};
use std::alloc::AllocError;

fn put_u16(out: &mut Vec<u8>, n: u16) -> Result<(), AllocError>
    ensures { OnOk result (Puts (value.U16 n) out.old.items out.new.items) }
{
    out.extend_from_slice(&n.to_be_bytes())
}

fn put_u32(out: &mut Vec<u8>, n: u32) -> Result<(), AllocError>
    ensures { OnOk result (Puts (value.U32 n) out.old.items out.new.items) }
{
    out.extend_from_slice(&n.to_be_bytes())
}

fn put_u64(out: &mut Vec<u8>, n: u64) -> Result<(), AllocError>
    ensures { OnOk result (Puts (value.U64 n) out.old.items out.new.items) }
{
    out.extend_from_slice(&n.to_be_bytes())
}

fn put_name(out: &mut Vec<u8>, name: &Name) -> Result<(), AllocError>
    ensures { OnOk result (Puts (value.Name name.now) out.old.items out.new.items) }
{
    let bytes = name.as_bytes();
    out.push(bytes.len() as u8)?;
    out.extend_from_slice(bytes)
}

fn put_path(out: &mut Vec<u8>, path: &Path) -> Result<(), AllocError>
    ensures { OnOk result (Puts (value.Path path.now) out.old.items out.new.items) }
{
    let names = path.names();
    out.push(names.len() as u8)?;
    for name in names {
        put_name(out, name)?;
    }
    Ok(())
}

fn put_place(out: &mut Vec<u8>, place: Place) -> Result<(), AllocError>
    ensures { OnOk result (Puts (value.Where place) out.old.items out.new.items) }
{
    match place {
        Place::Root => out.push(0)?,
        Place::Inside(node) => {
            out.push(1)?;
            put_u64(out, node.number())?;
        }
        Place::Trash => out.push(2)?,
    }
    Ok(())
}

fn put_share_kind(out: &mut Vec<u8>, kind: &ShareKind) -> Result<(), AllocError>
    ensures { OnOk result (Puts (value.Whom kind.now) out.old.items out.new.items) }
{
    match kind {
        ShareKind::User(user) => {
            out.push(0)?;
            put_u32(out, user.number())?;
        }
        ShareKind::Group(group) => {
            out.push(1)?;
            put_u32(out, group.number())?;
        }
        ShareKind::Link(token) => {
            out.push(3)?;
            put_name(out, token)?;
        }
    }
    Ok(())
}

fn put_optional(out: &mut Vec<u8>, n: Option<u64>) -> Result<(), AllocError>
    ensures { OnOk result (Puts (value.Optional n) out.old.items out.new.items) }
{
    match n {
        None => out.push(0)?,
        Some(n) => {
            out.push(1)?;
            put_u64(out, n)?;
        }
    }
    Ok(())
}

fn put_flag(out: &mut Vec<u8>, flag: bool) -> Result<(), AllocError>
    ensures { OnOk result (Puts (value.Flag flag) out.old.items out.new.items) }
{
    if flag {
        out.push(1)?;
    } else {
        out.push(0)?;
    }
    Ok(())
}

#[tactic(auto, unfolding(crate::specs::Spelling::spelled, crate::specs::Spelling::piece))]
fn put_piece(out: &mut Vec<u8>, piece: &Piece) -> Result<(), AllocError>
    requires { IsSized piece.now }
    ensures spelled { OnOk result (out.new.items ≡ out.old.items ++ value.piece piece.now) }
    ensures fits { OnOk result (FitsPiece piece.now) }
{
    put_u64(out, piece.blob.number())?;
    put_u32(out, piece.size)?;
    out.extend_from_slice(piece.digest.as_bytes())?;
    Ok(())
}

fn put_content(out: &mut Vec<u8>, content: &Content) -> Result<(), AllocError>
    ensures { OnOk result (Puts (value.Pieces MAX_PIECES content.now) out.old.items out.new.items) }
{
    let pieces = content.pieces();
    put_u16(out, pieces.len() as u16)?;
    for piece in pieces {
        put_piece(out, piece)?;
    }
    Ok(())
}

fn put_kind_and_content(
    out: &mut Vec<u8>,
    kind: NodeKind,
    content: &Content,
) -> Result<(), AllocError>
    requires { IsPlain kind content.now }
    ensures { OnOk result (Puts (value.What kind content.now) out.old.items out.new.items) }
{
    match kind {
        NodeKind::Folder => out.push(0)?,
        NodeKind::File => out.push(1)?,
    }
    put_content(out, content)
}

fn put_digest(out: &mut Vec<u8>, digest: &Digest) -> Result<(), AllocError>
    ensures { OnOk result (Puts (value.Digest digest.now) out.old.items out.new.items) }
{
    out.extend_from_slice(digest.as_bytes())
}

fn put_permissions(out: &mut Vec<u8>, perms: Perms) -> Result<(), AllocError>
    ensures { OnOk result (Puts (value.Permissions perms) out.old.items out.new.items) }
{
    out.push(perms.bits())?;
    Ok(())
}

fn share_number(share: Option<ShareId>) -> Option<u64>
    ensures { result ≡ share }
{
    share.map(|share| share.number())
}

fn seconds(moment: Option<Moment>) -> Option<u64>
    ensures { result ≡ moment }
{
    moment.map(|moment| moment.seconds())
}

/// Puts the fields of a key, which are the row's first.
fn put_key(key: &RowKey, out: &mut Vec<u8>) -> Result<(), AllocError>
    ensures { OnOk result (PutsAll (key_values key.now) out.old.items out.new.items) }
{
    match key {
        RowKey::Meta => Ok(()),
        RowKey::User(id) => put_u32(out, id.number()),
        RowKey::Token(digest) => put_digest(out, digest),
        RowKey::Group(id) => put_u32(out, id.number()),
        RowKey::Member { group, user } => {
            put_u32(out, group.number())?;
            put_u32(out, user.number())
        }
        RowKey::Node(id) => put_u64(out, id.number()),
        RowKey::Share(id) => put_u64(out, id.number()),
        RowKey::Mount { user, node } => {
            put_u32(out, user.number())?;
            put_u64(out, node.number())
        }
        RowKey::Version { node, at } => {
            put_u64(out, node.number())?;
            put_u64(out, at.seconds())
        }
        RowKey::Item(node) => put_u64(out, node.number()),
        RowKey::Upload { user, dir } => {
            put_u32(out, user.number())?;
            put_name(out, dir)
        }
        RowKey::Chunk { user, dir, number } => {
            put_u32(out, user.number())?;
            put_name(out, dir)?;
            put_u16(out, *number)
        }
    }
}

/// Puts the other fields of a row.
#[tactic(auto)]
fn put_body(row: &Row, out: &mut Vec<u8>) -> Result<(), AllocError>
    ensures { OnOk result (PutsAll (body_values FORMAT row.now) out.old.items out.new.items) }
{
    match row {
        Row::Meta(row) => {
            put_u32(out, row.next_user.number())?;
            put_u32(out, row.next_group.number())?;
            put_u64(out, row.next_node.number())?;
            put_u64(out, row.next_share.number())?;
            put_u64(out, row.next_blob.number())?;
            put_u64(out, row.last.seconds())?;
            Ok(())
        }
        Row::User(row) => {
            put_name(out, &row.name)?;
            put_u64(out, row.quota)?;
            put_u64(out, row.root.number())?;
            Ok(())
        }
        Row::Token(row) => put_u32(out, row.user.number()),
        Row::Group(row) => put_name(out, &row.name),
        Row::Member(_) => Ok(()),
        Row::Node(row) => {
            put_u32(out, row.owner.number())?;
            put_place(out, row.place)?;
            put_name(out, &row.name)?;
            put_kind_and_content(out, row.kind, &row.content)?;
            put_u64(out, row.changed.seconds())
        }
        Row::Share(row) => {
            put_share_kind(out, &row.kind)?;
            put_u64(out, row.node.number())?;
            put_u32(out, row.owner.number())?;
            put_u32(out, row.initiator.number())?;
            put_optional(out, share_number(row.parent))?;
            put_permissions(out, row.perms)?;
            put_optional(out, seconds(row.until))?;
            put_flag(out, row.ended)?;
            put_u64(out, row.made.seconds())?;
            Ok(())
        }
        Row::Mount(row) => {
            put_name(out, &row.name)?;
            put_flag(out, row.left)
        }
        Row::Version(row) => put_content(out, &row.content),
        Row::Item(row) => {
            put_u32(out, row.owner.number())?;
            put_name(out, &row.name)?;
            put_u64(out, row.from.number())?;
            put_u64(out, row.at.seconds())?;
            Ok(())
        }
        Row::Upload(row) => {
            put_path(out, &row.to)?;
            put_u64(out, row.touched.seconds())
        }
        Row::Chunk(row) => put_content(out, &row.content),
    }
}

fn number_of(key: &RowKey) -> u8
    ensures { result ≡ kind_of key.now }
{
    match key {
        RowKey::Meta => 1,
        RowKey::User(_) => 2,
        RowKey::Token(_) => 3,
        RowKey::Group(_) => 4,
        RowKey::Member { .. } => 5,
        RowKey::Node(_) => 6,
        RowKey::Share(_) => 7,
        RowKey::Mount { .. } => 8,
        RowKey::Version { .. } => 9,
        RowKey::Item(_) => 10,
        RowKey::Upload { .. } => 11,
        RowKey::Chunk { .. } => 12,
    }
}

/// Puts into `out` how the key is spelled, in the place of what it had. For want of memory `out` may hold anything.
pub fn write_key(key: &RowKey, out: &mut RawKey) -> Result<(), AllocError>
    ensures spelled { OnOk result (out.new ≡ key_spelling key.now) }
    ensures fits { OnOk result (FitsKey key.now) }
{
    out.kind = number_of(key);
    out.bytes.clear();
    put_key(key, &mut out.bytes)
}

/// Puts into `out` how the row is spelled, in the place of what it had. For want of memory `out` may hold anything.
pub fn write(row: &Row, out: &mut RawRow) -> Result<(), AllocError>
    ensures spelled { OnOk result (out.new ≡ spelling_of row.now) }
    ensures fits { OnOk result (Fits row.now) }
{
    let key = row.key()?;
    out.kind = number_of(&key);
    out.key.clear();
    put_key(&key, &mut out.key)?;
    out.body.clear();
    out.body.push(FORMAT)?;
    put_body(row, &mut out.body)
}
