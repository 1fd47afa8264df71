//! What a message is answered, once its body was taken.

ghost use Rattle.std.specs.Prelude.{◌≡◌};
ghost use Rattle.nf_session.specs.Book.{IsOfBody};
ghost use Rattle.nf_session.specs.Steps.{IsClosing, IsResponse};
ghost use Rattle.nf_session.specs.Turn.{how_of, stays_granted as stays};

use crate::backend::{Ending, PieceFault};
use crate::ended::Ended;
use nf_base::Content;
use nf_words::{Answer, Denial, Items, Listing, Reply, ShareLine, ShareLines, Versions};

/// What a message is answered.
#[derive(Drop)]
pub enum Response {
    /// It is refused.
    Denied(Denial),
    /// What was asked for was made.
    Made,
    /// It was done.
    Done,
    /// What is in the folder is told.
    Listing(Listing),
    /// What there is to tell of a share.
    Share(ShareLine),
    Shares(ShareLines),
    /// What is in the trash is told.
    Items(Items),
    /// Which versions a file has is told.
    Versions(Versions),
    /// What was asked of a share was done.
    Plain,
    /// The first piece of the file isn't given.
    Lost(PieceFault),
    /// The file is sent, whose first piece was taken, if it has one.
    File {
        content: Content,
        first: Option<Vec<u8>>,
    },
}

impl Response {
    /// The response to the End of a body.
    pub fn of(answer: Answer) -> Response
        requires { IsOfBody answer }
        ensures { IsResponse answer result }
    {
        match answer {
            Ok(Reply::Made) => Response::Made,
            Ok(Reply::Done) => Response::Done,
            Ok(_) => unreachable!(),
            Err(denial) => Response::Denied(denial),
        }
    }

    /// What was granted is to be ended yet.
    pub fn stays_granted(&self) -> bool
        ensures { result ≡ stays self.now }
    {
        matches!(self, Response::File { .. } | Response::Lost(_))
    }

    /// How that ends, by whether the response was written.
    pub fn ending(self, written: &Result<Option<Ended>, Ended>) -> Ending
        ensures ending { result ≡ how_of self written.now }
        ensures closing { IsClosing result }
    {
        match self {
            Response::File { .. } => match written {
                Ok(_) => Ending::Sent,
                Err(_) => Ending::Gone,
            },
            _ => Ending::Gone,
        }
    }
}
