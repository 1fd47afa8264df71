//! Laws of the bytes that are stored.

ghost use Rattle.nf_laws.specs.Wholes.{BlobsAreNew, OpensWhole, StaysWhole};

/// Blobs that hold each piece that a row or a granted GET names hold it after each step, with the body that the step stores.
pub fn stays_whole()
    ensures { StaysWhole }
{}

/// Any blobs hold each piece that the rows of an opening name, but for those that they haven't.
pub fn opens_whole()
    ensures { OpensWhole }
{}

/// A body is stored under the next number, and each number that was given keeps its bytes.
#[tactic(auto, using(crate::proofs::Blobs::blobs_are_new))]
pub fn blobs_are_new()
    ensures { BlobsAreNew }
{}
