//! How a session ends.

ghost use Rattle.std.specs.Prelude.{◌≡◌, ◌||◌, is_some};
ghost use Rattle.nf_http.specs.Head.{closes_session};
ghost use Rattle.nf_session.specs.Steps.{is_unsent};
ghost use Rattle.nf_session.specs.Turn.{end_by as spec_end_by, end_of as spec_end};

use crate::backend::PieceFault;
use crate::begun::Begun;
use crate::response::Response;
use nf_http::Message;
use nf_words::Denial;

/// How a session ended, where it was ended before `MAX_MESSAGES` messages were answered, or by the last of them.
#[derive(Clone, Copy, PartialEq, Eq)]
pub enum Ended {
    /// The input ended between messages, or a message ended the session.
    Closed,
    /// The bytes were no message, or ended inside one.
    BadMessage,
    /// The run has no room for two more entries.
    RunFull,
    /// A piece of a file, behind the first, isn't given, for a reason other than want of memory.
    Cut(PieceFault),
    /// The input failed, and counted it.
    ReadFault,
    /// The output failed, and counted it.
    WriteFault,
    /// There was no memory.
    Memory,
}

/// A message closes the session by itself, or by its body that wasn't sent.
pub fn closes(message: &Message, begun: &Begun) -> bool
    ensures { result ≡ (closes_session message.now || is_unsent message.now begun.now) }
{
    message.closes_session() || begun.is_unsent(message)
}

/// How the response to a message ends the session, if it does. The message may close it.
pub fn end_of(closes: bool, response: &Response) -> Option<Ended>
    ensures { result ≡ spec_end closes response.now }
{
    match response {
        Response::Denied(Denial::RunFull) => Some(Ended::RunFull),
        _ => closes.then_some(Ended::Closed),
    }
}

/// The response says that the session ends: by itself, or as the last that is written.
pub fn says_close(last: bool, end: &Option<Ended>) -> bool
    ensures { result ≡ (last || is_some end.now) }
{
    last || end.is_some()
}

/// How a message ends the session: by what kept its response from being written, or as the response does.
pub fn end_by(written: Result<Option<Ended>, Ended>) -> Option<Ended>
    ensures { result ≡ spec_end_by written }
{
    match written {
        Ok(end) => end,
        Err(ended) => Some(ended),
    }
}
