//! The fields Destination, Overwrite and Depth (RFC 4918, sections 10.2, 10.3 and 10.6).

ghost use Rattle.std.specs.Prelude.{◌≡◌, ◌==◌, None, Some, IfOk, codes, if◌then◌else◌, map, option_and_then, option_copied, option_map};
ghost use Rattle.std.specs.List.{list_any};
ghost use Rattle.nf_routes.specs.Mounts.{route_of};
ghost use Rattle.nf_words.specs.declared.answer.Denial.TheVariants.{BadParameter};
ghost use Rattle.nf_words.specs.declared.answer.Parameter.TheVariants as parameter;
ghost use Rattle.nf_dav.specs.Asked.{Gives, depth_refusal, destination_of, field, front_on as front_of_route, is_destination as is_place, is_infinite as says_infinity, is_overwrite, overwrites as may_overwrite, parameter_refusal, second_segments as second, transfer_refusal, unread as unread_by};
ghost use Rattle.nf_dav.specs.declared.requests.Unasked.TheVariants.{Refused};

use crate::Unasked;
use crate::fronts::{Front, front_on, leads_alike};
use nf_http::Message;
use nf_routes::{Method, Routes, segments};
use nf_words::{Denial, Parameter};
use std::alloc::{AllocError, Global};

/// The segments of the second place, none for a method that has one place; or the refusal of a field that the method reads.
pub fn second_segments(
    routes: &Routes,
    alloc: Global,
    front: Front,
    method: Method,
    message: &Message,
) -> Result<Vec<Vec<u8>>, Unasked>
    ensures { Gives (parameter_refusal front method message.now)
        (λ segments. map (λ segment. segment.items) segments.items ≡ second front method message.now) result }
{
    match method {
        Method::Move | Method::Copy => transfer_segments(routes, alloc, front, message),
        Method::Delete if has_bad_depth(message) => Err(unread(Parameter::Depth)),
        _ => Ok(Vec::new(alloc)),
    }
}

// The segments of the destination.
fn transfer_segments(
    routes: &Routes,
    alloc: Global,
    front: Front,
    message: &Message,
) -> Result<Vec<Vec<u8>>, Unasked>
    ensures { Gives (transfer_refusal front message.now)
        (λ segments. Some (map (λ segment. segment.items) segments.items) ≡ destination_of front message.now) result }
{
    let Some(destination) = destination(routes, alloc, front, message)? else {
        return Err(unread(Parameter::Destination));
    };
    if has_bad_overwrite(message) {
        return Err(unread(Parameter::Overwrite));
    }
    if has_bad_depth(message) {
        return Err(unread(Parameter::Depth));
    }
    Ok(destination)
}

/// The refusal of a parameter.
pub(crate) fn unread(parameter: Parameter) -> Unasked
    ensures { result ≡ Refused (BadParameter parameter) }
{
    Unasked::Refused(Denial::BadParameter(parameter))
}

/// The segments of a destination that can be read.
pub(crate) fn destination(
    routes: &Routes,
    alloc: Global,
    front: Front,
    message: &Message,
) -> Result<Option<Vec<Vec<u8>>>, AllocError>
    ensures { IfOk result (λ found. option_map (λ segments. map (λ segment. segment.items) segments.items) found ≡ destination_of front message.now) }
{
    let Some(value) = message.field(b"Destination") else {
        return Ok(None);
    };
    if !is_destination(routes, alloc, front, message.target(), value)? {
        return Ok(None);
    }
    Ok(Some(segments(alloc, value)?))
}

fn is_destination(
    routes: &Routes,
    alloc: Global,
    front: Front,
    target: &[u8],
    value: &[u8],
) -> Result<bool, AllocError>
    ensures { IfOk result (λ is. is ≡ is_place front target.now value.now) }
{
    if has_query(value) {
        return Ok(false);
    }
    let other = front_at(routes, alloc, value)?;
    leads_alike(alloc, front, target, value, other)
}

// What is in front of the path of a target.
fn front_at(routes: &Routes, alloc: Global, target: &[u8]) -> Result<Option<Front>, AllocError>
    ensures { IfOk result (λ front. front ≡ option_and_then front_of_route (route_of target.now)) }
{
    match routes.find(alloc, target)? {
        Some(route) => Ok(front_on(route)),
        None => Ok(None),
    }
}

/// Whether something stands behind a `?`.
pub(crate) fn has_query(target: &[u8]) -> bool
    ensures { result ≡ list_any (λ byte. byte == 63) target.now }
{
    target.contains(&b'?')
}

/// Whether what is at the target may go.
pub fn overwrites(message: &Message) -> bool
    ensures { result ≡ may_overwrite message.now }
{
    match message.field(b"Overwrite") {
        Some(value) => value == b"T".as_slice(),
        None => true,
    }
}

/// Whether there is an Overwrite that can't be read.
pub(crate) fn has_bad_overwrite(message: &Message) -> bool
    ensures { unread_by parameter.Overwrite is_overwrite (field (codes "Overwrite") message.now) ≡ (if result then Some (BadParameter parameter.Overwrite) else None) }
{
    match message.field(b"Overwrite") {
        Some(value) => value != b"T".as_slice() && value != b"F".as_slice(),
        None => false,
    }
}

/// Whether there is a Depth that is less deep than all.
pub(crate) fn has_bad_depth(message: &Message) -> bool
    ensures { depth_refusal message.now ≡ (if result then Some (BadParameter parameter.Depth) else None) }
{
    match message.field(b"Depth") {
        Some(value) => !is_infinite(value),
        None => false,
    }
}

fn is_infinite(value: &[u8]) -> bool
    ensures { result ≡ says_infinity value.now }
{
    value.eq_ignore_ascii_case(b"infinity")
}
