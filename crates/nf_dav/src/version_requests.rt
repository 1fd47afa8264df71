//! Requests about versions.

ghost use Rattle.std.specs.Prelude.{◌≡◌, None, Some, IfOk, codes, false, if◌then◌else◌, is_some, map, option_and_then, slice_get, unwrap_or};
ghost use Rattle.std.specs.Option.{option_map_or, option_or};
ghost use Rattle.nf_ocs.specs.Parameters.{number_in as number_of};
ghost use Rattle.nf_routes.specs.Targets.{version_segments as segments_of};
ghost use Rattle.nf_words.specs.History.{MayWant};
ghost use Rattle.nf_words.specs.declared.answer.Denial.TheVariants.{BadParameter};
ghost use Rattle.nf_words.specs.declared.answer.Parameter.TheVariants as parameter;
ghost use Rattle.nf_dav.specs.Asked.{IsGiven, is_version_back as is_there, is_version_route as is_of_versions, numbers_refusal, version_ask, version_back, version_moment, version_node, version_parameter_refusal, version_request as request_of_version, version_user};

use crate::Unasked;
use crate::fields::{has_bad_depth, has_query, unread};
use crate::fronts::first;
use crate::requests::caller;
use crate::spots::name;
use nf_base::{Moment, Name, NodeId};
use nf_http::Message;
use nf_ocs::number_in;
use nf_routes::{Method, restores_version, version_segments};
use nf_words::{Parameter, Request, Route, VersionAsk, Wanted};
use std::alloc::{AllocError, Global};

/// Whether a route is of versions.
pub(crate) fn is_version_route(route: Route) -> bool
    ensures { result ≡ is_of_versions route }
{
    matches!(route, Route::Versions | Route::Version)
}

/// A request about versions.
pub(crate) fn version_request(
    alloc: Global,
    route: Route,
    method: Method,
    message: &Message,
) -> Result<Request, Unasked>
    ensures gives { IsGiven (request_of_version route method message.now) result }
    ensures may_want { IfOk result MayWant }
{
    let segments = version_segments(alloc, message.target())?;
    let node = node(&segments);
    let moment = moment(&segments);
    let bad_number = bad_number(route, node, moment);
    if let Some(bad) = bad_parameter(alloc, method, message, first(&segments), bad_number)? {
        return Err(unread(bad));
    }
    let user = name(alloc, first(&segments))?;
    let node = NodeId::new(node.unwrap_or(0));
    let at = Moment::new(moment.unwrap_or(0));
    Ok(Request {
        caller: caller(message.field(b"Authorization")),
        wanted: Wanted::Version(asked(route, method, user, node, at)),
    })
}

// The number of the file.
fn node(segments: &[Vec<u8>]) -> Option<u64>
    ensures { result ≡ option_and_then number_of (slice_get (map (λ segment. segment.items) segments.now) 2) }
{
    match segments {
        [_, _, node, ..] => number_in(node),
        _ => None,
    }
}

// The moment of the version.
fn moment(segments: &[Vec<u8>]) -> Option<u64>
    ensures { result ≡ option_and_then number_of (slice_get (map (λ segment. segment.items) segments.now) 3) }
{
    match segments {
        [_, _, _, moment, ..] => number_in(moment),
        _ => None,
    }
}

// The first that can't be read of the numbers that the route has.
fn bad_number(route: Route, node: Option<u64>, moment: Option<u64>) -> Option<Parameter>
    ensures { numbers_refusal route node moment ≡ option_and_then (λ bad. Some (BadParameter bad)) result }
{
    if node.is_none() {
        Some(Parameter::Id)
    } else if route == Route::Version && moment.is_none() {
        Some(Parameter::At)
    } else {
        None
    }
}

// The first that can't be read, of the fields that the method reads there and then of those numbers.
fn bad_parameter(
    alloc: Global,
    method: Method,
    message: &Message,
    user: &[u8],
    bad_number: Option<Parameter>,
) -> Result<Option<Parameter>, AllocError>
    requires user { user.now ≡ version_user message.now }
    ensures { IfOk result (λ bad.
        version_parameter_refusal method message.now (option_and_then (λ bad. Some (BadParameter bad)) bad_number)
        ≡ option_and_then (λ bad. Some (BadParameter bad)) bad) }
{
    if method != Method::Move {
        return Ok(bad_number);
    }
    if !has_back(alloc, message, user)? {
        return Ok(Some(Parameter::Destination));
    }
    if has_bad_depth(message) {
        return Ok(Some(Parameter::Depth));
    }
    Ok(bad_number)
}

// Whether there is a destination, and versions come back there by the user.
fn has_back(alloc: Global, message: &Message, user: &[u8]) -> Result<bool, AllocError>
    requires { user.now ≡ version_user message.now }
    ensures { IfOk result (λ has. has ≡ version_back message.now) }
{
    match message.field(b"Destination") {
        Some(value) => is_back(alloc, user, value),
        None => Ok(false),
    }
}

fn is_back(alloc: Global, user: &[u8], value: &[u8]) -> Result<bool, AllocError>
    ensures { IfOk result (λ is. is ≡ is_there user.now value.now) }
{
    if has_query(value) {
        Ok(false)
    } else {
        restores_version(alloc, user, value)
    }
}

// What is asked. A number that can't be read is refused before.
fn asked(route: Route, method: Method, user: Name, node: NodeId, at: Moment) -> VersionAsk
    ensures { result ≡ version_ask route method user node at }
{
    match (route, method) {
        (Route::Version, Method::Get) => VersionAsk::Get { user, node, at },
        (Route::Version, Method::Move) => VersionAsk::Restore { user, node, at },
        _ => VersionAsk::List { user, node },
    }
}
