//! The keys by which rows are found, and fronts of keys.

ghost use Rattle.std.specs.Prelude.{◌≡◌, [], ◌∷◌, ◌++◌, ℕ, List, bytes_eq, filter, length};
ghost use Rattle.std.specs.List.{list_any};
ghost use Rattle.nf_defs.specs.Prelude.{IsRising, key_cmp};
ghost use Rattle.nf_table.specs.Rows.{AreSorted, begins, front_cmp};

use nf_base::{
    ChunkRow, ItemRow, Moment, MountRow, Name, NodeId, ShareId, ShareRow, UploadRow, UserId,
    VersionRow,
};
use nf_defs::{FoundBy, Keyed};
use std::cmp::Ordering;

/// Rows whose keys begin with a front of that type.
pub trait BegunBy<K>: Keyed {
    ghost numbers: { K → List ℕ };

    /// How the row's key, as far as a front is long, stands to that front.
    fn compare_front(&self, front: &K) -> Ordering
        ensures { result ≡ front_cmp (Self.key self.now) (numbers front.now) };
}

/// The rows whose keys begin with that front, among rows by rising key.
pub(crate) fn front_of<'a, K, R: BegunBy<K>>(rows: &'a [R], front: &K) -> &'a [R]
    requires { IsRising R.key rows.now }
    ensures { result.now ≡ filter (λ row. begins (R.key row) (R.numbers front.now)) rows.now }
{
    let from = rows.partition_point(|row| row.compare_front(front).is_lt());
    let (_, rest) = rows.split_at(from);
    let count = rest.partition_point(|row| row.compare_front(front).is_eq());
    &rest[..count]
}

/// Whether a row's key is among some sorted keys.
pub(crate) fn has_key<K, R: FoundBy<K>>(keys: &[K], row: &R) -> bool
    requires { AreSorted R.numbers keys.now }
    ensures { result ≡ list_any (λ key. bytes_eq (R.numbers key) (R.key row.now)) keys.now }
{
    keys.binary_search_by(|key| row.compare_to(key).reverse())
        .is_ok()
}

/// The key of a share.
#[derive(Clone, Copy)]
pub struct ShareKey {
    pub id: ShareId,
}

/// The key of a mount, which begins with its user.
#[derive(Clone, Copy)]
pub struct MountKey {
    pub user: UserId,
    pub node: NodeId,
}

/// The key of a version, which begins with its node.
#[derive(Clone, Copy)]
pub struct VersionKey {
    pub node: NodeId,
    pub at: Moment,
}

/// The key of an item of the trash.
#[derive(Clone, Copy)]
pub struct ItemKey {
    pub node: NodeId,
}

/// The key of an upload, with which the keys of its chunks begin.
#[derive(Drop)]
pub struct UploadKey {
    pub user: UserId,
    pub dir: Name,
}

/// The key of a chunk.
#[derive(Drop)]
pub struct ChunkKey {
    pub user: UserId,
    pub dir: Name,
    pub number: u16,
}

/// How a user and a name stand to others in keys: a name goes by its length first, then by its bytes.
fn compare_uploads(user: UserId, dir: &Name, other: UserId, other_dir: &Name) -> Ordering
    ensures { result ≡ key_cmp (user ∷ length dir.now ∷ dir.now) (other ∷ length other_dir.now ∷ other_dir.now) }
{
    let bytes = dir.as_bytes();
    let others = other_dir.as_bytes();
    user.cmp(&other)
        .then(bytes.len().cmp(&others.len()))
        .then(bytes.cmp(others))
}

impl FoundBy<ShareKey> for ShareRow {
    ghost numbers = { λ key. key.id ∷ [] };

    fn compare_to(&self, sought: &ShareKey) -> Ordering {
        self.id.cmp(&sought.id)
    }
}

impl FoundBy<MountKey> for MountRow {
    ghost numbers = { λ key. key.user ∷ key.node ∷ [] };

    fn compare_to(&self, sought: &MountKey) -> Ordering {
        self.user
            .cmp(&sought.user)
            .then(self.node.cmp(&sought.node))
    }
}

impl FoundBy<VersionKey> for VersionRow {
    ghost numbers = { λ key. key.node ∷ key.at ∷ [] };

    fn compare_to(&self, sought: &VersionKey) -> Ordering {
        self.node.cmp(&sought.node).then(self.at.cmp(&sought.at))
    }
}

impl FoundBy<ItemKey> for ItemRow {
    ghost numbers = { λ key. key.node ∷ [] };

    fn compare_to(&self, sought: &ItemKey) -> Ordering {
        self.node.cmp(&sought.node)
    }
}

impl FoundBy<UploadKey> for UploadRow {
    ghost numbers = { λ key. key.user ∷ length key.dir ∷ key.dir };

    fn compare_to(&self, sought: &UploadKey) -> Ordering {
        compare_uploads(self.user, &self.dir, sought.user, &sought.dir)
    }
}

impl FoundBy<ChunkKey> for ChunkRow {
    ghost numbers = { λ key. key.user ∷ length key.dir ∷ key.dir ++ key.number ∷ [] };

    #[tactic(auto, using(nf_defs::proofs::Puts::chunk_cmp))]
    fn compare_to(&self, sought: &ChunkKey) -> Ordering {
        compare_uploads(self.user, &self.dir, sought.user, &sought.dir).then(
            self.number.cmp(&sought.number),
        )
    }
}

/// The mounts of a user.
impl BegunBy<UserId> for MountRow {
    ghost numbers = { λ user. user ∷ [] };

    fn compare_front(&self, front: &UserId) -> Ordering {
        self.user.cmp(front)
    }
}

/// The versions of a node.
impl BegunBy<NodeId> for VersionRow {
    ghost numbers = { λ node. node ∷ [] };

    fn compare_front(&self, front: &NodeId) -> Ordering {
        self.node.cmp(front)
    }
}

/// The chunks of an upload.
impl BegunBy<UploadKey> for ChunkRow {
    ghost numbers = { λ key. key.user ∷ length key.dir ∷ key.dir };

    fn compare_front(&self, front: &UploadKey) -> Ordering {
        compare_uploads(self.user, &self.dir, front.user, &front.dir)
    }
}
