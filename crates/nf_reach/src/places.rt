//! What the paths of a request lead to, and whether that is reached and there.

ghost use Rattle.std.specs.Prelude.{◌≡◌, option_and_then};
ghost use Rattle.nf_reach.specs.Asking.{source_refusal, target_refusal, unreached_for};
ghost use Rattle.nf_words.specs.Places.{source_lost, target_lost};

use crate::asker::Asker;
use crate::ways::{Way, Ways};
use nf_defs::Found;
use nf_words::{Asked, Denial};

/// What is acted upon has to be there.
fn source_lost(place: &Found) -> Option<Denial>
    ensures { result ≡ source_lost place.now }
{
    match place {
        Found::At(_) => None,
        Found::Free { .. } | Found::Missing { .. } => Some(Denial::NotFound),
    }
}

/// The folder of what is made has to be there.
fn target_lost(place: &Found) -> Option<Denial>
    ensures { result ≡ target_lost place.now }
{
    match place {
        Found::At(_) | Found::Free { .. } => None,
        Found::Missing { .. } => Some(Denial::NoParent),
    }
}

impl<'a> Asker<'a> {
    /// Why who asks isn't reached by the mount of a way, if it goes by one.
    fn unreached_on(&self, way: &Way) -> Option<Denial>
        ensures { result ≡ unreached_for self.now way.now }
    {
        self.unreached(way.mount?)
    }

    /// Why what a way leads to can't be acted upon. Where the request removes it, a mount's own path isn't tested.
    fn source_refusal(&self, removes: bool, way: &Way) -> Option<Denial>
        ensures { result ≡ source_refusal self.now removes way.now }
    {
        if removes && way.itself {
            return source_lost(&way.place);
        }
        match self.unreached_on(way) {
            Some(refusal) => Some(refusal),
            None => source_lost(&way.place),
        }
    }

    /// Why nothing can be made or stored at the end of a way.
    fn target_refusal(&self, way: &Way) -> Option<Denial>
        ensures { result ≡ target_refusal self.now way.now }
    {
        match self.unreached_on(way) {
            Some(refusal) => Some(refusal),
            None => target_lost(&way.place),
        }
    }

    /// Why what a request acts upon isn't reached, or isn't there.
    pub fn source_lost(&self, asked: &Asked<'_>, ways: &Ways) -> Option<Denial>
        ensures { result ≡ option_and_then (source_refusal self.now asked.now.removes) ways.now.source }
    {
        self.source_refusal(asked.removes, ways.source.as_ref()?)
    }

    /// Why the place of what it makes or stores isn't reached, or has no folder.
    pub fn target_lost(&self, ways: &Ways) -> Option<Denial>
        ensures { result ≡ option_and_then (target_refusal self.now) ways.now.target }
    {
        self.target_refusal(ways.target.as_ref()?)
    }
}
