//! The bytes of pieces.

ghost use Rattle.std.specs.Prelude.{◌≡◌, ◌<◌, length, slice_get, Some};
ghost use Rattle.nf_desk.specs.Pieces.{IsMeasured, IsTested, measure_of};
ghost use Rattle.nf_keeper.specs.Views.{bytes_in};

use nf_base::{Content, Digest, Piece};
use nf_keeper::KeepFault;
use nf_session::PieceFault;
use nf_words::{Damage, Measure};

/// A piece of a content.
pub fn piece_at(content: &Content, index: usize) -> &Piece
    requires { index < length content.now }
    ensures { slice_get content.now index ≡ Some result.now }
{
    content.pieces().get(index).unwrap()
}

/// What was read of a piece, tested by its length and digest.
pub fn test_piece(
    piece: &Piece,
    read: Result<Option<Vec<u8>>, KeepFault>,
) -> Result<Vec<u8>, PieceFault>
    ensures { IsTested piece.now read result }
{
    match read {
        Ok(bytes) => match tested(piece, bytes) {
            Ok(bytes) => Ok(bytes),
            Err(damage) => Err(PieceFault::Damaged(damage)),
        },
        Err(KeepFault::Failed) => Err(PieceFault::Store),
        Err(KeepFault::Memory) => Err(PieceFault::Memory),
    }
}

/// The bytes, where there are any and they are the piece's.
fn tested(piece: &Piece, bytes: Option<Vec<u8>>) -> Result<Vec<u8>, Damage>
    ensures { IsMeasured piece.now (bytes_in bytes) result }
{
    let wanted = Measure {
        length: u64::from(piece.size),
        digest: piece.digest,
    };
    let found = match bytes {
        Some(bytes) => {
            let found = measure(&bytes);
            if found == wanted {
                return Ok(bytes);
            }
            Some(found)
        }
        None => None,
    };
    Err(Damage {
        blob: piece.blob,
        wanted,
        found,
    })
}

fn measure(bytes: &[u8]) -> Measure
    ensures { result ≡ measure_of bytes.now }
{
    Measure {
        length: bytes.len() as u64,
        digest: Digest::of(bytes),
    }
}
