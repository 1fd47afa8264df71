//! What was sent in chunks is what is read.

ghost use Rattle.nf_joins.specs.Bytes.{OwnTellOn, SentIsRead};
ghost use Rattle.nf_outside.specs.Lent.{takes};

use nf_outside::{Clock, Dice};

/// Over a whole run: where the chunks of an upload were sent by whatever seats, and joined, a GET that is granted the file while its content
/// isn't changed is given the very bodies of the chunks' PUTs, one after the other by rising number: of each chunk the last that was stored
/// before. Where the store tells nothing, they are bytes of their lengths and digests.
pub fn sent_is_read<C: Clock, D: Dice>()
    ensures { SentIsRead (takes C.reads D.draws) }
{}

/// What the store tells by a seat's book it tells by each later one of the same seat, or nothing any more.
pub fn own_tell_on()
    ensures { OwnTellOn }
{}
