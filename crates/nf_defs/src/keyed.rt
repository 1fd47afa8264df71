//! Rows by rising key.

ghost use Rattle.std.specs.Prelude.{◌≡◌, ◌+◌, ◌<◌, ◌≤◌, ◌∷◌, ℕ, List, OnOk, OnErr, IsOk, length, vec_capacity};
ghost use Rattle.nf_defs.specs.Keys.{user_key, token_key, group_key, member_key, node_key, share_key, mount_key, version_key, item_key, upload_key, chunk_key};
ghost use Rattle.nf_defs.specs.Puts.{key_cmp, put};
ghost use Rattle.nf_defs.specs.Rising.{IsRising};

use nf_base::{
    ChunkRow, GroupRow, ItemRow, MemberRow, MountRow, Name, NodeRow, ShareRow, TokenRow, UploadRow,
    UserRow, VersionRow,
};
use std::alloc::AllocError;
use std::cmp::Ordering;

/// A row with a key, by which the rows of its kind are ordered.
pub trait Keyed {
    ghost key: { Self → List ℕ };

    /// How the row's key stands to another's.
    fn compare(&self, other: &Self) -> Ordering
        ensures { result ≡ key_cmp (key self.now) (key other.now) };
}

/// Puts a row at its place among rows by rising key, in place of the one with its key if there is one.
pub fn put<R: Keyed + Drop>(rows: &mut Vec<R>, row: R) -> Result<(), AllocError>
    requires { IsRising R.key rows.old.items }
    ensures ok { OnOk result (rows.new.items ≡ put R.key row rows.old.items) }
    ensures err { OnErr result (rows.new.items ≡ rows.old.items) }
    ensures room { length rows.old.items < vec_capacity rows.old → IsOk result }
    ensures capacity { vec_capacity rows.old ≤ vec_capacity rows.new }
{
    match rows.binary_search_by(|other| other.compare(&row)) {
        Ok(at) => rows[at] = row,
        Err(at) => rows.insert(at, row)?,
    }
    Ok(())
}

/// Puts a row as `put` does, where there is room for one more. It takes no memory.
pub fn put_reserved<R: Keyed + Drop>(rows: &mut Vec<R>, row: R)
    requires rising { IsRising R.key rows.old.items }
    requires room { length rows.old.items < vec_capacity rows.old }
    ensures items { rows.new.items ≡ put R.key row rows.old.items }
    ensures rising { IsRising R.key rows.new.items }
    ensures count { length rows.new.items ≤ length rows.old.items + 1 }
    ensures capacity { vec_capacity rows.old ≤ vec_capacity rows.new }
{
    let done: Result<_, _> = put(rows, row);
    done.unwrap();
}

/// How names stand in keys: by their lengths first, then by their bytes.
fn compare_names(name: &Name, other: &Name) -> Ordering
    ensures { result ≡ key_cmp (length name.now ∷ name.now) (length other.now ∷ other.now) }
{
    let bytes = name.as_bytes();
    let others = other.as_bytes();
    bytes.len().cmp(&others.len()).then(bytes.cmp(others))
}

impl Keyed for UserRow {
    ghost key = { user_key };

    fn compare(&self, other: &UserRow) -> Ordering {
        self.id.cmp(&other.id)
    }
}

impl Keyed for TokenRow {
    ghost key = { token_key };

    fn compare(&self, other: &TokenRow) -> Ordering {
        self.digest.as_bytes().cmp(other.digest.as_bytes())
    }
}

impl Keyed for GroupRow {
    ghost key = { group_key };

    fn compare(&self, other: &GroupRow) -> Ordering {
        self.id.cmp(&other.id)
    }
}

impl Keyed for MemberRow {
    ghost key = { member_key };

    fn compare(&self, other: &MemberRow) -> Ordering {
        self.group
            .cmp(&other.group)
            .then(self.user.cmp(&other.user))
    }
}

impl Keyed for NodeRow {
    ghost key = { node_key };

    fn compare(&self, other: &NodeRow) -> Ordering {
        self.id.cmp(&other.id)
    }
}

impl Keyed for ShareRow {
    ghost key = { share_key };

    fn compare(&self, other: &ShareRow) -> Ordering {
        self.id.cmp(&other.id)
    }
}

impl Keyed for MountRow {
    ghost key = { mount_key };

    fn compare(&self, other: &MountRow) -> Ordering {
        self.user.cmp(&other.user).then(self.node.cmp(&other.node))
    }
}

impl Keyed for VersionRow {
    ghost key = { version_key };

    fn compare(&self, other: &VersionRow) -> Ordering {
        self.node.cmp(&other.node).then(self.at.cmp(&other.at))
    }
}

impl Keyed for ItemRow {
    ghost key = { item_key };

    fn compare(&self, other: &ItemRow) -> Ordering {
        self.node.cmp(&other.node)
    }
}

impl Keyed for UploadRow {
    ghost key = { upload_key };

    fn compare(&self, other: &UploadRow) -> Ordering {
        self.user
            .cmp(&other.user)
            .then(compare_names(&self.dir, &other.dir))
    }
}

impl Keyed for ChunkRow {
    ghost key = { chunk_key };

    fn compare(&self, other: &ChunkRow) -> Ordering {
        self.user
            .cmp(&other.user)
            .then(compare_names(&self.dir, &other.dir))
            .then(self.number.cmp(&other.number))
    }
}
