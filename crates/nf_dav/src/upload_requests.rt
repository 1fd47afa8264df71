//! Requests about uploads in chunks.

ghost use Rattle.std.specs.Prelude.{◌≡◌, [], None, Some, IfOk, codes, if◌then◌else◌, is_some, map, option_and_then, option_map, slice_get, unwrap_or};
ghost use Rattle.nf_base.specs.Naming.{path_fault};
ghost use Rattle.nf_ocs.specs.Parameters.{number_in as number_of};
ghost use Rattle.nf_routes.specs.Targets.{upload_segments as segments_of};
ghost use Rattle.nf_words.specs.History.{MayWant};
ghost use Rattle.nf_words.specs.declared.answer.Denial.TheVariants.{BadParameter};
ghost use Rattle.nf_words.specs.declared.answer.Parameter.TheVariants as parameter;
ghost use Rattle.nf_dav.specs.Asked.{GivesNamed, IsGiven, field, intended_of, names_behind, names_of, told_by, total_of, unread as unread_by, upload_asked, upload_fault, upload_parameter_refusal, upload_request as request_of_upload, upload_user};

use crate::Unasked;
use crate::fields::{destination, has_bad_depth, unread};
use crate::fronts::{Front, first};
use crate::requests::{caller, takes_no_body};
use crate::spots::{name, path};
use nf_base::Path;
use nf_http::Message;
use nf_ocs::number_in;
use nf_routes::{Method, Routes, upload_segments};
use nf_words::{Denial, Parameter, Request, Spot, UploadAsk, Wanted};
use std::alloc::{AllocError, Global};

/// A request about an upload.
pub(crate) fn upload_request(
    routes: &Routes,
    alloc: Global,
    method: Method,
    message: &Message,
) -> Result<Request, Unasked>
    ensures gives { IsGiven (request_of_upload method message.now) result }
    ensures may_want { IfOk result MayWant }
{
    if takes_no_body(method, message.length()) {
        return Err(Unasked::Refused(Denial::Body));
    }
    let segments = upload_segments(alloc, message.target())?;
    let told = told(routes, alloc, method, message, first(&segments))?;
    if let Some(bad) = bad_parameter(method, message, told.is_some()) {
        return Err(unread(bad));
    }
    Ok(Request {
        caller: caller(message.field(b"Authorization")),
        wanted: Wanted::Upload(asked(alloc, method, message, &segments, &told)?),
    })
}

// The segments of the destination, where the method reads one and it is a path in that user's files.
fn told(
    routes: &Routes,
    alloc: Global,
    method: Method,
    message: &Message,
    user: &[u8],
) -> Result<Option<Vec<Vec<u8>>>, AllocError>
    requires { user.now ≡ upload_user message.now }
    ensures { IfOk result (λ told. option_map (λ segments. map (λ segment. segment.items) segments.items) told ≡ told_by method message.now) }
{
    match method {
        Method::Mkcol | Method::Put | Method::Move => intended(routes, alloc, message, user),
        _ => Ok(None),
    }
}

fn intended(
    routes: &Routes,
    alloc: Global,
    message: &Message,
    user: &[u8],
) -> Result<Option<Vec<Vec<u8>>>, AllocError>
    requires { user.now ≡ upload_user message.now }
    ensures { IfOk result (λ told. option_map (λ segments. map (λ segment. segment.items) segments.items) told ≡ intended_of message.now) }
{
    match destination(routes, alloc, Front::User, message)? {
        Some(segments) if first(&segments) == user => Ok(Some(segments)),
        _ => Ok(None),
    }
}

// The first field that can't be read, of those that the method reads there.
fn bad_parameter(method: Method, message: &Message, told: bool) -> Option<Parameter>
    requires { told ≡ is_some (told_by method message.now) }
    ensures { upload_parameter_refusal method message.now ≡ option_and_then (λ bad. Some (BadParameter bad)) result }
{
    match method {
        Method::Mkcol if !told => Some(Parameter::Destination),
        Method::Mkcol => None,
        Method::Put if !told && message.field(b"Destination").is_some() => {
            Some(Parameter::Destination)
        }
        Method::Put => None,
        Method::Move if !told => Some(Parameter::Destination),
        _ if has_bad_depth(message) => Some(Parameter::Depth),
        Method::Move if has_bad_total(message) => Some(Parameter::Total),
        _ => None,
    }
}

// Whether there is a total that is no number.
fn has_bad_total(message: &Message) -> bool
    ensures { unread_by parameter.Total (λ value. is_some (number_of value)) (field (codes "OC-Total-Length") message.now) ≡ (if result then Some (BadParameter parameter.Total) else None) }
{
    match message.field(b"OC-Total-Length") {
        Some(value) => number_in(value).is_none(),
        None => false,
    }
}

// The bytes that an upload is said to have.
fn total(message: &Message) -> Option<u64>
    ensures { result ≡ total_of message.now }
{
    number_in(message.field(b"OC-Total-Length")?)
}

// What is asked, or the first bad name. The routes of uploads have no other methods.
fn asked(
    alloc: Global,
    method: Method,
    message: &Message,
    segments: &[Vec<u8>],
    told: &Option<Vec<Vec<u8>>>,
) -> Result<UploadAsk, Unasked>
    requires segments { map (λ segment. segment.items) segments.now ≡ segments_of message.now.target }
    requires told { option_map (λ segments. map (λ segment. segment.items) segments.items) told.now ≡ told_by method message.now }
    ensures { GivesNamed (upload_fault method message.now) (upload_asked method message.now) result }
{
    let user = name(alloc, first(segments))?;
    let dir = name(alloc, segment(segments, 1))?;
    match method {
        Method::Mkcol => Ok(UploadAsk::New {
            user,
            dir,
            to: path(alloc, names(told))?,
        }),
        Method::Put => Ok(UploadAsk::Chunk {
            user,
            dir,
            name: name(alloc, segment(segments, 2))?,
            to: path_told(alloc, told)?,
            length: message.length() as u64,
        }),
        Method::Move => Ok(UploadAsk::Join {
            dir,
            spot: Spot {
                user: Some(user),
                path: path(alloc, names(told))?,
            },
            total: total(message),
        }),
        _ => Ok(UploadAsk::Drop { user, dir }),
    }
}

// The path of a destination, where there is one.
fn path_told(alloc: Global, told: &Option<Vec<Vec<u8>>>) -> Result<Option<Path>, Unasked>
    ensures { GivesNamed (path_fault (names_behind (option_map (λ segments. map (λ segment. segment.items) segments.items) told.now)))
        (option_map names_of (option_map (λ segments. map (λ segment. segment.items) segments.items) told.now)) result }
{
    match told {
        Some(_) => Ok(Some(path(alloc, names(told))?)),
        None => Ok(None),
    }
}

// The names behind the user's; none where there is no destination.
fn names(told: &Option<Vec<Vec<u8>>>) -> &[Vec<u8>]
    ensures { map (λ segment. segment.items) result.now ≡ names_behind (option_map (λ segments. map (λ segment. segment.items) segments.items) told.now) }
{
    match told {
        Some(segments) => behind_first(segments),
        None => &[],
    }
}

fn behind_first(segments: &[Vec<u8>]) -> &[Vec<u8>]
    ensures { map (λ segment. segment.items) result.now ≡ names_of (map (λ segment. segment.items) segments.now) }
{
    match segments {
        [] => &[],
        [_, names @ ..] => names,
    }
}

// One of some segments, where there are so many.
fn segment(segments: &[Vec<u8>], at: usize) -> &[u8]
    ensures { result.now ≡ unwrap_or (slice_get (map (λ segment. segment.items) segments.now) at) [] }
{
    match segments.get(at) {
        Some(segment) => segment,
        None => &[],
    }
}
