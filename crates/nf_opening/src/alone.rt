//! Rules that a row keeps by itself, or beside the counters.

ghost use Rattle.std.specs.Prelude.{◌≡◌, not, nat_lt, true};
ghost use Rattle.std.specs.Option.{option_map_or};
ghost use Rattle.nf_base.specs.declared.rows.Row.TheVariants as rows;
ghost use Rattle.nf_defs.specs.Tables.{tables_of};
ghost use Rattle.nf_rules.specs.Rules.{are_chunk_numbers, are_counters, are_item_numbers, are_numbers, are_share_numbers, are_upload_numbers, are_version_numbers, first_index, has_ungiven_blob, is_given, is_lavish, is_place_given, is_recipient_given};
ghost use Rattle.nf_words.specs.Prelude.{is_end_moment};

use crate::first::first;
use nf_base::{
    BlobId, ChunkRow, ItemRow, MAX_QUOTA, MetaRow, Moment, NodeId, NodeRow, Piece, Place, Row,
    ShareId, ShareKind, ShareRow, UploadRow, VersionRow,
};

/// The seconds of a day.
const DAY: u64 = 86_400;

/// The midnight that ends the last day on which a share may end: 9999-01-01T00:00:00Z.
const LAST_END: u64 = 253_370_764_800;

/// The first row with a number that wasn't given, or a moment to come.
pub(crate) fn first_ungiven(meta: &MetaRow, rows: &[Row]) -> Option<usize>
    requires { meta.now ≡ (tables_of rows.now).meta }
    ensures { result ≡ first_index (λ row. not (are_numbers (tables_of rows.now).meta row)) rows.now }
{
    first(rows, |row| !are_numbers(meta, row))
}

fn are_numbers(meta: &MetaRow, row: &Row) -> bool
    ensures { result ≡ are_numbers meta.now row.now }
{
    let next_user = u64::from(meta.next_user.number());
    let next_group = u64::from(meta.next_group.number());
    match row {
        Row::Meta(row) => are_counters(row),
        Row::User(row) => {
            is_given(next_user, u64::from(row.id.number()))
                && is_given(meta.next_node.number(), row.root.number())
        }
        Row::Token(row) => is_given(next_user, u64::from(row.user.number())),
        Row::Group(row) => is_given(next_group, u64::from(row.id.number())),
        Row::Member(row) => {
            is_given(next_group, u64::from(row.group.number()))
                && is_given(next_user, u64::from(row.user.number()))
        }
        Row::Node(row) => are_node_numbers(meta, row),
        Row::Share(row) => are_share_numbers(meta, row),
        Row::Mount(row) => {
            is_given(next_user, u64::from(row.user.number()))
                && is_given(meta.next_node.number(), row.node.number())
        }
        Row::Version(row) => are_version_numbers(meta, row),
        Row::Item(row) => are_item_numbers(meta, row),
        Row::Upload(row) => are_upload_numbers(meta, row),
        Row::Chunk(row) => are_chunk_numbers(meta, row),
    }
}

fn are_node_numbers(meta: &MetaRow, row: &NodeRow) -> bool
    ensures { result ≡ are_numbers meta.now (rows.Node row.now) }
{
    is_given(meta.next_node.number(), row.id.number())
        && is_given(
            u64::from(meta.next_user.number()),
            u64::from(row.owner.number()),
        )
        && is_place_given(meta.next_node, row.place)
        && !has_ungiven_blob(meta.next_blob, row.content.pieces())
        && row.changed <= meta.last
}

fn are_share_numbers(meta: &MetaRow, row: &ShareRow) -> bool
    ensures { result ≡ are_share_numbers meta.now row.now }
{
    let next_user = u64::from(meta.next_user.number());
    is_given(meta.next_share.number(), row.id.number())
        && is_given(meta.next_node.number(), row.node.number())
        && is_given(next_user, u64::from(row.owner.number()))
        && is_given(next_user, u64::from(row.initiator.number()))
        && is_recipient_given(meta, &row.kind)
        && is_parent_given(meta.next_share, row.parent)
        && is_end(row.until)
        && row.made <= meta.last
}

fn are_version_numbers(meta: &MetaRow, row: &VersionRow) -> bool
    ensures { result ≡ are_version_numbers meta.now row.now }
{
    is_given(meta.next_node.number(), row.node.number())
        && !has_ungiven_blob(meta.next_blob, row.content.pieces())
        && row.at <= meta.last
}

fn are_item_numbers(meta: &MetaRow, row: &ItemRow) -> bool
    ensures { result ≡ are_item_numbers meta.now row.now }
{
    is_given(meta.next_node.number(), row.node.number())
        && is_given(
            u64::from(meta.next_user.number()),
            u64::from(row.owner.number()),
        )
        && is_given(meta.next_node.number(), row.from.number())
        && row.at <= meta.last
}

fn are_upload_numbers(meta: &MetaRow, row: &UploadRow) -> bool
    ensures { result ≡ are_upload_numbers meta.now row.now }
{
    is_given(
        u64::from(meta.next_user.number()),
        u64::from(row.user.number()),
    ) && row.touched <= meta.last
}

fn are_chunk_numbers(meta: &MetaRow, row: &ChunkRow) -> bool
    ensures { result ≡ are_chunk_numbers meta.now row.now }
{
    is_given(
        u64::from(meta.next_user.number()),
        u64::from(row.user.number()),
    ) && !has_ungiven_blob(meta.next_blob, row.content.pieces())
}

fn is_recipient_given(meta: &MetaRow, to: &ShareKind) -> bool
    ensures { result ≡ is_recipient_given meta.now to.now }
{
    match to {
        ShareKind::User(user) => is_given(
            u64::from(meta.next_user.number()),
            u64::from(user.number()),
        ),
        ShareKind::Group(group) => is_given(
            u64::from(meta.next_group.number()),
            u64::from(group.number()),
        ),
        ShareKind::Link(_) => true,
    }
}

fn is_parent_given(next: ShareId, parent: Option<ShareId>) -> bool
    ensures { result ≡ option_map_or (is_given next) parent true }
{
    match parent {
        Some(parent) => is_given(next.number(), parent.number()),
        None => true,
    }
}

/// Whether a share may end then; it may end never.
fn is_end(until: Option<Moment>) -> bool
    ensures { result ≡ option_map_or is_end_moment until true }
{
    match until {
        Some(until) => is_end_moment(until.seconds()),
        None => true,
    }
}

/// Whether it is a midnight, in UTC, that ends a day from 1970 to 9998.
fn is_end_moment(seconds: u64) -> bool
    ensures { result ≡ is_end_moment seconds }
{
    0 < seconds && seconds % DAY == 0 && seconds <= LAST_END
}

/// Whether the number was given, where that is the next.
fn is_given(next: u64, id: u64) -> bool
    ensures { result ≡ is_given next id }
{
    0 < id && id < next
}

/// Whether all counters count from 1 on.
fn are_counters(meta: &MetaRow) -> bool
    ensures { result ≡ are_counters meta.now }
{
    0 < meta.next_user.number()
        && 0 < meta.next_group.number()
        && 0 < meta.next_node.number()
        && 0 < meta.next_share.number()
        && 0 < meta.next_blob.number()
}

fn is_place_given(next: NodeId, place: Place) -> bool
    ensures { result ≡ is_place_given next place }
{
    match place {
        Place::Inside(folder) => is_given(next.number(), folder.number()),
        Place::Root | Place::Trash => true,
    }
}

fn has_ungiven_blob(next: BlobId, content: &[Piece]) -> bool
    ensures { result ≡ has_ungiven_blob next content.now }
{
    content
        .iter()
        .any(|piece| !is_given(next.number(), piece.blob.number()))
}

/// Whether it is a user whose quota is too large.
pub(crate) fn is_lavish(row: &Row) -> bool
    ensures { result ≡ is_lavish row.now }
{
    match row {
        Row::User(row) => row.quota > MAX_QUOTA,
        _ => false,
    }
}
