//! What is put is what is got.

ghost use Rattle.nf_outside.specs.Lent.{takes};
ghost use Rattle.nf_promises.specs.Kept.{PutThenGet, PutThenGetOfBytes};

use nf_outside::{Clock, Dice};

/// A GET is answered the very bytes that a PUT of its path stored just before, in the caller's own root, unless there is no
/// memory or the store fails: the head of a file of so many bytes, and the bytes. Over a store that tells nothing they are bytes
/// of that length and digest, or it is answered that they are damaged.
pub fn put_then_get<C: Clock, D: Dice>()
    ensures { PutThenGet (takes C.reads D.draws) }
{}

/// The same of the bytes that come in and go out: of an input that begins with a PUT, its body and a GET.
pub fn put_then_get_of_bytes<C: Clock, D: Dice>()
    ensures { PutThenGetOfBytes (takes C.reads D.draws) }
{}
