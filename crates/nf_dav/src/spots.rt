//! The places of segments.

ghost use Rattle.std.specs.Prelude.{◌≡◌, map};
ghost use Rattle.nf_base.specs.Naming.{name_fault, path_fault};
ghost use Rattle.nf_dav.specs.Asked.{GivesNamed, segments_fault, spot_at, user_by};

use crate::Unasked;
use crate::fronts::Front;
use nf_base::{Name, NameFault, Path};
use nf_words::{Denial, Spot};
use std::alloc::Global;

/// The place of segments, of which the first is in front of the path.
pub fn spot(alloc: Global, front: Front, segments: &[Vec<u8>]) -> Result<Spot, Unasked>
    ensures { GivesNamed (segments_fault (map (λ segment. segment.items) segments.now))
        (spot_at front (map (λ segment. segment.items) segments.now)) result }
{
    match segments {
        [] => Ok(Spot {
            user: None,
            path: path(alloc, &[])?,
        }),
        [first, names @ ..] => Ok(Spot {
            user: user(front, name(alloc, first)?),
            path: path(alloc, names)?,
        }),
    }
}

// The user whose name is in front. A link's token names none.
fn user(front: Front, name: Name) -> Option<Name>
    ensures { result ≡ user_by front name }
{
    match front {
        Front::User => Some(name),
        Front::Link => None,
    }
}

/// A name that is read.
pub fn name(alloc: Global, bytes: &[u8]) -> Result<Name, Unasked>
    ensures { GivesNamed (name_fault bytes.now) bytes.now result }
{
    match Name::read(alloc, bytes) {
        Ok(name) => Ok(name),
        Err(NameFault::Memory) => Err(Unasked::Memory),
        Err(fault) => Err(Unasked::Refused(Denial::BadName(fault))),
    }
}

/// A path that is.
pub fn path(alloc: Global, names: &[Vec<u8>]) -> Result<Path, Unasked>
    ensures { GivesNamed (path_fault (map (λ segment. segment.items) names.now)) (map (λ segment. segment.items) names.now) result }
{
    match Path::read(alloc, names) {
        Ok(path) => Ok(path),
        Err(NameFault::Memory) => Err(Unasked::Memory),
        Err(fault) => Err(Unasked::Refused(Denial::BadName(fault))),
    }
}
