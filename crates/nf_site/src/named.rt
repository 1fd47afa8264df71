//! The blobs that rows and granted GETs name.

ghost use Rattle.std.specs.Prelude.{◌≡◌, ◌++◌, OnOk};
ghost use Rattle.std.specs.List.{flat_map};
ghost use Rattle.nf_laws.specs.Named.{blobs_of, goal_blobs};

use nf_base::{BlobId, ChunkRow, NodeRow, Piece, VersionRow};
use nf_words::{Goal, Ticket};
use std::alloc::AllocError;

/// Those of what the nodes contain.
pub(crate) fn name_nodes(blobs: &mut Vec<BlobId>, nodes: &[NodeRow]) -> Result<(), AllocError>
    ensures { OnOk result (blobs.new.items ≡ blobs.old.items ++ flat_map (λ row. blobs_of row.content) nodes.now) }
{
    for row in nodes {
        name_pieces(blobs, row.content.pieces())?;
    }
    Ok(())
}

/// Those of versions.
pub(crate) fn name_versions(
    blobs: &mut Vec<BlobId>,
    versions: &[VersionRow],
) -> Result<(), AllocError>
    ensures { OnOk result (blobs.new.items ≡ blobs.old.items ++ flat_map (λ row. blobs_of row.content) versions.now) }
{
    for row in versions {
        name_pieces(blobs, row.content.pieces())?;
    }
    Ok(())
}

/// Those of chunks.
pub(crate) fn name_chunks(blobs: &mut Vec<BlobId>, chunks: &[ChunkRow]) -> Result<(), AllocError>
    ensures { OnOk result (blobs.new.items ≡ blobs.old.items ++ flat_map (λ row. blobs_of row.content) chunks.now) }
{
    for row in chunks {
        name_pieces(blobs, row.content.pieces())?;
    }
    Ok(())
}

/// Those of what is to be sent.
pub(crate) fn name_tickets(blobs: &mut Vec<BlobId>, tickets: &[Ticket]) -> Result<(), AllocError>
    ensures { OnOk result (blobs.new.items ≡ blobs.old.items ++ flat_map (λ ticket. goal_blobs ticket.goal) tickets.now) }
{
    for ticket in tickets {
        name_goal(blobs, &ticket.goal)?;
    }
    Ok(())
}

fn name_goal(blobs: &mut Vec<BlobId>, goal: &Goal) -> Result<(), AllocError>
    ensures { OnOk result (blobs.new.items ≡ blobs.old.items ++ goal_blobs goal.now) }
{
    match goal {
        Goal::Serve(content) => name_pieces(blobs, content.pieces()),
        Goal::Store { .. } | Goal::Chunk { .. } => Ok(()),
    }
}

fn name_pieces(blobs: &mut Vec<BlobId>, pieces: &[Piece]) -> Result<(), AllocError>
    ensures { OnOk result (blobs.new.items ≡ blobs.old.items ++ blobs_of pieces.now) }
{
    for piece in pieces {
        blobs.push(piece.blob)?;
    }
    Ok(())
}
