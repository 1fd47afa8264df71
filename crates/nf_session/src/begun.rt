//! What a message's head led to, before its body was taken.

ghost use Rattle.std.specs.Prelude.{◌≡◌};
ghost use Rattle.nf_http.specs.Head.{Head, expects_continue};
ghost use Rattle.nf_session.specs.Steps.{holds_back as waits, is_early as early, is_granted as granted, is_invited as invited, is_refused as refused, is_unsent as unsent, left_length as left, skipped_length as skipped, stored_length as stored};

use nf_dav::wants_body;
use nf_http::Message;
use nf_words::{Answer, Denial, Goal, Reply};

/// What a head led to.
#[derive(Drop)]
pub enum Begun {
    /// It is refused before the site is asked.
    Unasked(Denial),
    /// The site was asked, and answered so.
    Asked(Answer),
}

impl Begun {
    /// Something is granted, and stays so until it is ended.
    pub fn is_granted(&self) -> bool
        ensures { result ≡ granted self.now }
    {
        matches!(self, Begun::Asked(Ok(Reply::Granted(_))))
    }

    /// It is refused.
    pub fn is_refused(&self) -> bool
        ensures { result ≡ refused self.now }
    {
        matches!(self, Begun::Unasked(_) | Begun::Asked(Err(_)))
    }

    /// How long the body is that is to be stored, if one is.
    pub fn stored_length(&self) -> Option<u64>
        ensures { result ≡ stored self.now }
    {
        match self {
            Begun::Asked(
                Ok(Reply::Granted(Goal::Store { length, .. } | Goal::Chunk { length, .. })),
            ) => Some(*length),
            _ => None,
        }
    }

    /// The sender of the body that was granted waits to be told to send it.
    pub fn is_invited(&self, message: &Message) -> bool
        ensures { result ≡ invited message.now self.now }
    {
        self.stored_length().is_some() && message.expects_continue()
    }

    /// The sender of what is refused waited for that, and hasn't sent its body.
    pub fn is_unsent(&self, message: &Message) -> bool
        ensures { result ≡ unsent message.now self.now }
    {
        self.is_refused() && holds_back(message)
    }

    /// How much of a body that isn't granted is skipped: what wasn't taken before the request was looked for.
    pub fn skipped_length(&self, message: &Message) -> usize
        ensures { result ≡ skipped message.now self.now }
    {
        if self.is_unsent(message) {
            0
        } else {
            left_length(message)
        }
    }
}

/// There is a body, and it is taken before the request is looked for.
pub fn is_early(message: &Message) -> bool
    ensures { result ≡ early message.now }
{
    message.length() > 0 && message.length() <= wants_body(message)
}

// How much of a body isn't.
fn left_length(message: &Message) -> usize
    ensures { result ≡ left message.now }
{
    if is_early(message) {
        0
    } else {
        message.length()
    }
}

// The sender waits for an answer with a body that isn't taken before the request is looked for.
fn holds_back(message: &Message) -> bool
    ensures { result ≡ waits message.now }
{
    message.expects_continue() && message.length() > wants_body(message)
}
