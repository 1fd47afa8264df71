//! What the chunks of an upload have is a content.

ghost use Rattle.nf_uploads.specs.Laws.{WholesFit};

/// Where the chunks have numbers from 1 to `MAX_PIECES`, and each at most one piece, no upload has more than `MAX_PIECES`.
pub fn wholes_fit()
    ensures { WholesFit }
{}
