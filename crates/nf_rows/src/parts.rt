//! The parts of fields: each is what stands at the front of some bytes, and the bytes after it.
//!
//! A part's first argument is the place of its field, for the fault.

ghost use Rattle.std.specs.Prelude.{◌≡◌, ◌≤◌, All, length, IfOk};
ghost use Rattle.nf_base.specs.Kept.{IsSized};
ghost use Rattle.std.specs.Int.{w16, w32, w64};
ghost use Rattle.nf_rows.specs.Faults.{Gives, bytes_at, number_at, byte_at, many_at, name_at, path_at, place_at, node_kind_at, share_kind_at, optional_at, flag_at, permissions_at, piece_at, content_at, format_at};

use crate::fault::RowFault;
use nf_base::{
    BlobId, Content, Digest, GroupId, MAX_BODY, MAX_DEPTH, MAX_PIECES, Name, NameFault, NodeId,
    NodeKind, Path, Perms, Piece, Place, ShareKind, UserId,
};
use std::alloc::Global;

/// The format in which rows are written, and the only one that is read: the first byte of each body.
pub const FORMAT: u8 = 1;

pub fn bytes_of(at: usize, count: usize, bytes: &[u8]) -> Result<(&[u8], &[u8]), RowFault>
    ensures exact { Gives (λ x. (x.0.now, x.1.now)) result (bytes_at count at bytes.now) }
    ensures whole { IfOk result (λ x. length x.0.now ≡ count) }
{
    if bytes.len() < count {
        return Err(RowFault::Short { at });
    }
    Ok(bytes.split_at(count))
}

pub fn u16_of(at: usize, bytes: &[u8]) -> Result<(u16, &[u8]), RowFault>
    ensures { Gives (λ x. (x.0, x.1.now)) result (number_at w16 at bytes.now) }
{
    let (n, rest) = bytes_of(at, 2, bytes)?;
    Ok((u16::from_be_bytes([n[0], n[1]]), rest))
}

pub fn u32_of(at: usize, bytes: &[u8]) -> Result<(u32, &[u8]), RowFault>
    ensures { Gives (λ x. (x.0, x.1.now)) result (number_at w32 at bytes.now) }
{
    let (n, rest) = bytes_of(at, 4, bytes)?;
    Ok((u32::from_be_bytes([n[0], n[1], n[2], n[3]]), rest))
}

pub fn u64_of(at: usize, bytes: &[u8]) -> Result<(u64, &[u8]), RowFault>
    ensures { Gives (λ x. (x.0, x.1.now)) result (number_at w64 at bytes.now) }
{
    let (n, rest) = bytes_of(at, 8, bytes)?;
    let number = u64::from_be_bytes([n[0], n[1], n[2], n[3], n[4], n[5], n[6], n[7]]);
    Ok((number, rest))
}

pub fn digest_of(bytes: &[u8]) -> Digest
    requires { length bytes.now ≡ 32 }
    ensures { result ≡ bytes.now }
{
    let mut digest = [0; 32];
    digest.copy_from_slice(bytes);
    Digest::new(digest)
}

fn byte_of(at: usize, bytes: &[u8]) -> Result<(u8, &[u8]), RowFault>
    ensures { Gives (λ x. (x.0, x.1.now)) result (byte_at at bytes.now) }
{
    match bytes {
        [] => Err(RowFault::Short { at }),
        [byte, rest @ ..] => Ok((*byte, rest)),
    }
}

#[tactic(auto, unfolding(crate::specs::Faults::format_at))]
pub fn format_of(at: usize, bytes: &[u8]) -> Result<(u8, &[u8]), RowFault>
    ensures exact { Gives (λ x. (x.0, x.1.now)) result (format_at at bytes.now) }
    ensures known { IfOk result (λ x. x.0 ≡ FORMAT) }
{
    let (format, rest) = byte_of(at, bytes)?;
    if format != FORMAT {
        return Err(RowFault::Value { at });
    }
    Ok((format, rest))
}

#[tactic(auto, unfolding(crate::specs::Faults::name_at))]
pub fn name_of(alloc: Global, at: usize, bytes: &[u8]) -> Result<(Name, &[u8]), RowFault>
    ensures { Gives (λ x. (x.0, x.1.now)) result (name_at at bytes.now) }
{
    let (count, rest) = byte_of(at, bytes)?;
    let (name, rest) = bytes_of(at, count as usize, rest)?;
    match Name::read(alloc, name) {
        Ok(name) => Ok((name, rest)),
        Err(NameFault::Memory) => Err(RowFault::Memory),
        Err(_) => Err(RowFault::Value { at }),
    }
}

fn names_of(
    alloc: Global,
    at: usize,
    count: u8,
    bytes: &[u8],
) -> Result<(Vec<Name>, &[u8]), RowFault>
    ensures exact { Gives (λ x. (x.0.items, x.1.now)) result (many_at (name_at at) count bytes.now) }
    ensures whole { IfOk result (λ x. length x.0.items ≡ count) }
{
    let mut names = Vec::new(alloc);
    let mut rest = bytes;
    for _ in 0..count {
        let (name, after) = name_of(alloc, at, rest)?;
        names.push(name)?;
        rest = after;
    }
    Ok((names, rest))
}

#[tactic(auto, unfolding(crate::specs::Faults::path_at))]
pub fn path_of(alloc: Global, at: usize, bytes: &[u8]) -> Result<(Path, &[u8]), RowFault>
    ensures { Gives (λ x. (x.0, x.1.now)) result (path_at at bytes.now) }
{
    let (count, rest) = byte_of(at, bytes)?;
    if u32::from(count) > MAX_DEPTH {
        return Err(RowFault::Value { at });
    }
    let (names, rest) = names_of(alloc, at, count, rest)?;
    Ok((Path::new(names), rest))
}

#[tactic(auto, unfolding(crate::specs::Faults::place_at))]
pub fn place_of(at: usize, bytes: &[u8]) -> Result<(Place, &[u8]), RowFault>
    ensures { Gives (λ x. (x.0, x.1.now)) result (place_at at bytes.now) }
{
    match bytes {
        [] => Err(RowFault::Short { at }),
        [0, rest @ ..] => Ok((Place::Root, rest)),
        [1, rest @ ..] => {
            let (node, rest) = u64_of(at, rest)?;
            Ok((Place::Inside(NodeId::new(node)), rest))
        }
        [2, rest @ ..] => Ok((Place::Trash, rest)),
        [_, ..] => Err(RowFault::Value { at }),
    }
}

#[tactic(auto, unfolding(crate::specs::Faults::node_kind_at))]
pub fn node_kind_of(at: usize, bytes: &[u8]) -> Result<(NodeKind, &[u8]), RowFault>
    ensures { Gives (λ x. (x.0, x.1.now)) result (node_kind_at at bytes.now) }
{
    match bytes {
        [] => Err(RowFault::Short { at }),
        [0, rest @ ..] => Ok((NodeKind::Folder, rest)),
        [1, rest @ ..] => Ok((NodeKind::File, rest)),
        [_, ..] => Err(RowFault::Value { at }),
    }
}

#[tactic(auto, unfolding(crate::specs::Faults::share_kind_at))]
pub fn share_kind_of(alloc: Global, at: usize, bytes: &[u8]) -> Result<(ShareKind, &[u8]), RowFault>
    ensures { Gives (λ x. (x.0, x.1.now)) result (share_kind_at at bytes.now) }
{
    match bytes {
        [] => Err(RowFault::Short { at }),
        [0, rest @ ..] => {
            let (user, rest) = u32_of(at, rest)?;
            Ok((ShareKind::User(UserId::new(user)), rest))
        }
        [1, rest @ ..] => {
            let (group, rest) = u32_of(at, rest)?;
            Ok((ShareKind::Group(GroupId::new(group)), rest))
        }
        [3, rest @ ..] => {
            let (token, rest) = name_of(alloc, at, rest)?;
            Ok((ShareKind::Link(token), rest))
        }
        [_, ..] => Err(RowFault::Value { at }),
    }
}

#[tactic(auto, unfolding(crate::specs::Faults::optional_at))]
pub fn optional_of(at: usize, bytes: &[u8]) -> Result<(Option<u64>, &[u8]), RowFault>
    ensures { Gives (λ x. (x.0, x.1.now)) result (optional_at at bytes.now) }
{
    match bytes {
        [] => Err(RowFault::Short { at }),
        [0, rest @ ..] => Ok((None, rest)),
        [1, rest @ ..] => {
            let (number, rest) = u64_of(at, rest)?;
            Ok((Some(number), rest))
        }
        [_, ..] => Err(RowFault::Value { at }),
    }
}

#[tactic(auto, unfolding(crate::specs::Faults::flag_at))]
pub fn flag_of(at: usize, bytes: &[u8]) -> Result<(bool, &[u8]), RowFault>
    ensures { Gives (λ x. (x.0, x.1.now)) result (flag_at at bytes.now) }
{
    match bytes {
        [] => Err(RowFault::Short { at }),
        [0, rest @ ..] => Ok((false, rest)),
        [1, rest @ ..] => Ok((true, rest)),
        [_, ..] => Err(RowFault::Value { at }),
    }
}

#[tactic(auto, unfolding(crate::specs::Faults::permissions_at))]
pub fn permissions_of(at: usize, bytes: &[u8]) -> Result<(Perms, &[u8]), RowFault>
    ensures { Gives (λ x. (x.0, x.1.now)) result (permissions_at at bytes.now) }
{
    let (bits, rest) = byte_of(at, bytes)?;
    match Perms::read(bits) {
        Some(perms) => Ok((perms, rest)),
        None => Err(RowFault::Value { at }),
    }
}

#[tactic(auto, unfolding(crate::specs::Faults::piece_at))]
fn piece_of(at: usize, bytes: &[u8]) -> Result<(Piece, &[u8]), RowFault>
    ensures exact { Gives (λ x. (x.0, x.1.now)) result (piece_at at bytes.now) }
    ensures sized { IfOk result (λ x. IsSized x.0) }
{
    let (blob, rest) = u64_of(at, bytes)?;
    let (size, rest) = u32_of(at, rest)?;
    let (digest, rest) = bytes_of(at, 32, rest)?;
    if size < 1 || u64::from(size) > MAX_BODY {
        return Err(RowFault::Value { at });
    }
    let piece = Piece {
        blob: BlobId::new(blob),
        size,
        digest: digest_of(digest),
    };
    Ok((piece, rest))
}

fn pieces_of(
    alloc: Global,
    at: usize,
    count: u16,
    bytes: &[u8],
) -> Result<(Vec<Piece>, &[u8]), RowFault>
    ensures exact { Gives (λ x. (x.0.items, x.1.now)) result (many_at (piece_at at) count bytes.now) }
    ensures whole { IfOk result (λ x. length x.0.items ≡ count) }
    ensures sized { IfOk result (λ x. All IsSized x.0.items) }
{
    let mut pieces = Vec::new(alloc);
    let mut rest = bytes;
    for _ in 0..count {
        match piece_of(at, rest) {
            Ok((piece, after)) => {
                pieces.push(piece)?;
                rest = after;
            }
            Err(fault) => return Err(fault),
        }
    }
    Ok((pieces, rest))
}

#[tactic(auto, unfolding(crate::specs::Faults::content_at))]
pub fn content_of(
    alloc: Global,
    most: usize,
    at: usize,
    bytes: &[u8],
) -> Result<(Content, &[u8]), RowFault>
    ensures exact { Gives (λ x. (x.0, x.1.now)) result (content_at most at bytes.now) }
    ensures within { IfOk result (λ x. length x.0 ≤ most) }
{
    let (count, rest) = u16_of(at, bytes)?;
    if usize::from(count) > MAX_PIECES {
        return Err(RowFault::Value { at });
    }
    let (pieces, rest) = pieces_of(alloc, at, count, rest)?;
    if pieces.len() > most {
        return Err(RowFault::Value { at });
    }
    Ok((Content::new(pieces), rest))
}
