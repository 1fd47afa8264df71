//! The limits.

ghost use Rattle.std.specs.Prelude.{◌≡◌, ◌≤◌, ◌*◌, IfOk, length, sum_by};
ghost use Rattle.nf_base.specs.declared.limits.TheConstants.{MAX_PIECES};
ghost use Rattle.nf_defs.specs.Prelude.{piece_count, tables_of};
ghost use Rattle.nf_opening.specs.Counts.{AreCounts};
ghost use Rattle.nf_rules.specs.Rules.{first_index, is_beyond, is_chunk_number};
ghost use Rattle.nf_words.specs.Prelude.{stored_pieces};

use crate::Loaded;
use crate::counts::Counts;
use crate::first::first;
use crate::totals::total;
use nf_base::{
    ChunkRow, MAX_GROUPS, MAX_MEMBERS, MAX_MOUNTS, MAX_NODES, MAX_PIECES, MAX_SHARES,
    MAX_STORED_PIECES, MAX_TOKENS, MAX_USERS, MAX_VERSIONS, NodeRow, Row, VersionRow,
};
use nf_words::{MAX_PENDING, MAX_UPLOADS};
use std::alloc::{AllocError, Global};

/// The first row that is one of too many.
pub(crate) fn first_beyond(
    alloc: Global,
    loaded: &Loaded,
    rows: &[Row],
) -> Result<Option<usize>, AllocError>
    requires { loaded.now ≡ tables_of rows.now }
    ensures { IfOk result (λ at. at ≡ first_index (is_beyond (tables_of rows.now)) rows.now) }
{
    let counts = Counts::of(alloc, loaded)?;
    Ok(first(rows, |row| is_beyond(loaded, &counts, row)))
}

/// How many pieces are stored, with repeats. No sum of these passes a u128.
pub(crate) fn stored_pieces(loaded: &Loaded) -> u128
    ensures { result ≡ stored_pieces loaded.now }
{
    piece_count(&loaded.nodes) + version_pieces(&loaded.versions) + chunk_pieces(&loaded.chunks)
}

/// How many pieces the nodes have, with repeats.
fn piece_count(rows: &[NodeRow]) -> u128
    ensures count { result ≡ piece_count rows.now }
    ensures few { result ≤ MAX_PIECES * length rows.now }
{
    let mut count = 0;
    for row in rows {
        count += row.content.pieces().len() as u128;
    }
    count
}

/// How many pieces the versions have, with repeats.
fn version_pieces(rows: &[VersionRow]) -> u128
    ensures count { result ≡ sum_by (λ row. length row.content) rows.now }
    ensures few { result ≤ MAX_PIECES * length rows.now }
{
    let mut count = 0;
    for row in rows {
        count += row.content.pieces().len() as u128;
    }
    count
}

/// How many pieces the chunks have, with repeats.
fn chunk_pieces(rows: &[ChunkRow]) -> u128
    ensures count { result ≡ sum_by (λ row. length row.content) rows.now }
    ensures few { result ≤ MAX_PIECES * length rows.now }
{
    let mut count = 0;
    for row in rows {
        count += row.content.pieces().len() as u128;
    }
    count
}

fn is_beyond(loaded: &Loaded, counts: &Counts, row: &Row) -> bool
    requires { AreCounts loaded.now counts.now }
    ensures { result ≡ is_beyond loaded.now row.now }
{
    match row {
        Row::User(_) => loaded.users.len() > MAX_USERS,
        Row::Token(_) => loaded.tokens.len() > MAX_TOKENS,
        Row::Group(_) => loaded.groups.len() > MAX_GROUPS,
        Row::Member(_) => loaded.members.len() > MAX_MEMBERS,
        Row::Node(row) => {
            loaded.nodes.len() > MAX_NODES
                || !row.content.pieces().is_empty() && counts.pieces > u128::from(MAX_STORED_PIECES)
        }
        Row::Share(_) => loaded.shares.len() > MAX_SHARES,
        Row::Mount(_) => loaded.mounts.len() > MAX_MOUNTS,
        Row::Version(_) => {
            loaded.versions.len() > MAX_VERSIONS || counts.pieces > u128::from(MAX_STORED_PIECES)
        }
        Row::Upload(row) => total(&counts.uploads, row.user) > MAX_UPLOADS as u128,
        Row::Chunk(row) => {
            !is_chunk_number(row.number)
                || !row.content.pieces().is_empty() && counts.pieces > u128::from(MAX_STORED_PIECES)
                || row.content.size() > 0
                    && total(&counts.pending, row.user) > u128::from(MAX_PENDING)
        }
        _ => false,
    }
}

/// Whether it is a number of a chunk.
fn is_chunk_number(number: u16) -> bool
    ensures { result ≡ is_chunk_number number }
{
    0 < number && usize::from(number) <= MAX_PIECES
}
