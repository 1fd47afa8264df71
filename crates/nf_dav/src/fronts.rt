//! What stands first in the path to a file.

ghost use Rattle.std.specs.Prelude.{◌≡◌, IfOk, map};
ghost use Rattle.nf_dav.specs.Asked.{first_of, front_on as front_of_route, is_same_link as same_link, leads_alike as do_lead_alike};

use nf_routes::segments;
use nf_words::Route;
use std::alloc::{AllocError, Global};

/// What the first segment of a path to files is.
#[derive(Clone, Copy, PartialEq, Eq)]
pub enum Front {
    /// The name of the user whose files they are.
    User,
    /// The token of the link that shares them.
    Link,
}

/// What it is on a route; nothing where no files are.
pub fn front_on(route: Route) -> Option<Front>
    ensures { result ≡ front_of_route route }
{
    match route {
        Route::Files => Some(Front::User),
        Route::Public => Some(Front::Link),
        _ => None,
    }
}

/// Whether a second target with that front leads to files as the first does: to those of some user, or to what the same link shares.
pub fn leads_alike(
    alloc: Global,
    front: Front,
    target: &[u8],
    second: &[u8],
    other: Option<Front>,
) -> Result<bool, AllocError>
    ensures { IfOk result (λ alike. alike ≡ do_lead_alike front target.now second.now other) }
{
    match (front, other) {
        (Front::User, Some(Front::User)) => Ok(true),
        (Front::Link, Some(Front::Link)) => is_same_link(alloc, target, second),
        _ => Ok(false),
    }
}

fn is_same_link(alloc: Global, target: &[u8], second: &[u8]) -> Result<bool, AllocError>
    ensures { IfOk result (λ same. same ≡ same_link target.now second.now) }
{
    let target = segments(alloc, target)?;
    let second = segments(alloc, second)?;
    Ok(first(&target) == first(&second))
}

/// The first of some segments.
pub fn first(segments: &[Vec<u8>]) -> &[u8]
    ensures { result.now ≡ first_of (map (λ segment. segment.items) segments.now) }
{
    match segments {
        [] => &[],
        [first, ..] => first,
    }
}
