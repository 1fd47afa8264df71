//! The messages of a seed, one after the other.

ghost use Rattle.std.specs.Prelude.{◌≡◌, ◌<◌, IfOk};
ghost use Rattle.nf_generate.specs.Drawing.{drawing};
ghost use Rattle.nf_generate.specs.declared.messages.TheConstants.{MAX_COUNT};
ghost use Rattle.nf_generate.specs.Messages.{moment_of, passed};
ghost use Rattle.nf_generate.specs.Writing.{message_bytes as bytes_of};

use crate::drawing::draw_message;
use crate::writing::message_bytes;
use std::alloc::{AllocError, Global};

/// The most messages of one list.
pub const MAX_COUNT: u64 = 100_000;

/// The moment of the first message, and how many seconds lie between two.
const FIRST: u64 = 1_800_000_000;

const BETWEEN: u64 = 60;

/// A message, and when it comes.
#[derive(Drop)]
pub struct Message {
    pub bytes: Vec<u8>,
    /// In seconds since 1970-01-01.
    pub moment: u64,
}

/// The messages of a seed from one on: its number, and the state of the numbers that it is drawn from.
#[derive(Clone, Copy)]
pub struct Messages {
    index: u64,
    state: u64,
}

impl Messages {
    /// All of that seed.
    pub fn new(seed: u64) -> Messages
        ensures { result ≡ record { index = 0; state = seed } }
    {
        Messages {
            index: 0,
            state: seed,
        }
    }

    /// The next one.
    pub fn next(&mut self, alloc: Global) -> Result<Message, AllocError>
        requires { self.old.index < MAX_COUNT }
        ensures bytes { IfOk result (λ message. message.bytes.items ≡ bytes_of self.old.index (drawing self.old.state)) }
        ensures moment { IfOk result (λ message. message.moment ≡ moment_of self.old.index) }
        ensures after { self.new ≡ passed self.old }
    {
        let index = self.index;
        let drawing = draw_message(&mut self.state);
        self.index = index + 1;
        let bytes = message_bytes(alloc, index, drawing)?;
        Ok(Message {
            bytes,
            moment: FIRST + BETWEEN * index,
        })
    }
}
