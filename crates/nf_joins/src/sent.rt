//! Where the chunks of an upload come from.

ghost use Rattle.nf_joins.specs.Sent.{ChunksWereSent};

/// A chunk that is there after a legal history was there before it, and all the while; or an entry of it sent the chunk: the End of the body
/// that its seat was granted to send under that number. Its content is that body's, and no later entry replaced or dropped it.
pub fn chunks_were_sent()
    ensures { ChunksWereSent }
{}
