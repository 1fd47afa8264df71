//! What a request asks for, and what its paths lead to.

ghost use Rattle.std.specs.Prelude.{◌≡◌, option_copied, false, true};
ghost use Rattle.std.specs.Option.{option_map_or};
ghost use Rattle.nf_words.specs.Prelude.{has_forbidden, is_kept, is_transfer, node_at, node_found};
ghost use Rattle.nf_view.specs.Asked.{is_called, is_forbidden, names_caller};

use nf_base::{Name, NodeId, Path, UserRow};
use nf_defs::Found;
use nf_words::{Making, Places, Spot};

/// Whether a place names no other user than the caller.
pub fn names_caller(caller: Option<&UserRow>, spot: Option<&Spot>) -> bool
    ensures { result ≡ names_caller (option_copied caller.entry) (option_copied spot.entry) }
{
    match spot {
        Some(spot) => is_no_other(caller, spot.user.as_ref()),
        None => true,
    }
}

/// Whether no other user than the caller is named.
pub fn is_no_other(caller: Option<&UserRow>, name: Option<&Name>) -> bool
    ensures { result ≡ option_map_or (is_called (option_copied caller.entry)) (option_copied name.entry) true }
{
    match name {
        Some(name) => is_called(caller, name),
        None => true,
    }
}

fn is_called(caller: Option<&UserRow>, name: &Name) -> bool
    ensures { result ≡ is_called (option_copied caller.entry) name.now }
{
    match caller {
        Some(row) => row.name.as_bytes() == name.as_bytes(),
        None => false,
    }
}

/// Whether the path of a place has a name that is forbidden.
pub fn is_forbidden(spot: Option<&Spot>) -> bool
    ensures { result ≡ is_forbidden (option_copied spot.entry) }
{
    match spot {
        Some(spot) => has_forbidden(spot.path.names()),
        None => false,
    }
}

/// Whether a path has one, if there is a path.
pub fn is_forbidden_path(path: Option<&Path>) -> bool
    ensures { result ≡ option_map_or has_forbidden (option_copied path.entry) false }
{
    match path {
        Some(path) => has_forbidden(path.names()),
        None => false,
    }
}

fn has_forbidden(names: &[Name]) -> bool
    ensures { result ≡ has_forbidden names.now }
{
    names.iter().any(|name| name.forbidden())
}

/// Whether what is at the source is put at the target, or copied there.
pub fn is_transfer(makes: &Making) -> bool
    ensures { result ≡ is_transfer makes.now }
{
    match makes {
        Making::Moved | Making::Copied => true,
        Making::Nothing
        | Making::File { .. }
        | Making::Folder
        | Making::Shared
        | Making::Told
        | Making::Restored { .. }
        | Making::Sent { .. }
        | Making::Refilled { .. }
        | Making::Assembled => false,
    }
}

/// The node at a place, if one is there.
pub fn node_at(place: Option<Found>) -> Option<NodeId>
    ensures { result ≡ node_at place }
{
    node_found(&place?)
}

/// The node that was found, if one is there.
pub fn node_found(place: &Found) -> Option<NodeId>
    ensures { result ≡ node_found place.now }
{
    match place {
        Found::At(node) => Some(*node),
        Found::Free { .. } | Found::Missing { .. } => None,
    }
}

/// Whether something is at the target that isn't to be replaced.
pub fn is_kept(overwrites: bool, places: &Places) -> bool
    ensures { result ≡ is_kept overwrites places.now }
{
    !overwrites && node_at(places.target).is_some()
}
