//! Requests about the trash bin.

ghost use Rattle.std.specs.Prelude.{◌≡◌, None, Some, IfOk, codes, false, if◌then◌else◌, is_some, map, option_and_then, option_copied, slice_get, unwrap_or};
ghost use Rattle.std.specs.Option.{option_map_or, option_or};
ghost use Rattle.nf_base.specs.Naming.{name_fault};
ghost use Rattle.nf_ocs.specs.Parameters.{number_in as number_of};
ghost use Rattle.nf_routes.specs.Targets.{trash_segments as segments_of};
ghost use Rattle.nf_words.specs.History.{MayWant};
ghost use Rattle.nf_words.specs.declared.answer.Denial.TheVariants.{BadParameter};
ghost use Rattle.nf_words.specs.declared.answer.Parameter.TheVariants as parameter;
ghost use Rattle.nf_dav.specs.Asked.{Gives, IsGiven, Tells, back_refusal, depth_refusal, field, is_back as is_there, is_trash_route as is_of_trash, item_refusal, trash_ask, trash_item, trash_parameter_refusal, trash_refusal, trash_request as request_of_trash, trash_user};

use crate::Unasked;
use crate::fields::{has_bad_depth, has_bad_overwrite, has_query, unread};
use crate::fronts::first;
use crate::requests::caller;
use crate::spots::name;
use nf_base::{Name, NodeId};
use nf_http::Message;
use nf_ocs::number_in;
use nf_routes::{Method, restores, trash_segments};
use nf_words::{Parameter, Request, Route, TrashAsk, Wanted};
use std::alloc::{AllocError, Global};

/// Whether a route is of the trash bin.
pub(crate) fn is_trash_route(route: Route) -> bool
    ensures { result ≡ is_of_trash route }
{
    matches!(route, Route::Trash | Route::TrashItem)
}

/// A request about the trash bin.
pub(crate) fn trash_request(
    alloc: Global,
    route: Route,
    method: Method,
    message: &Message,
) -> Result<Request, Unasked>
    ensures gives { IsGiven (request_of_trash route method message.now) result }
    ensures may_want { IfOk result MayWant }
{
    let segments = trash_segments(alloc, message.target())?;
    let item = item(&segments);
    let numbered = item.is_some();
    if let Some(bad) = bad_parameter(alloc, route, method, message, first(&segments), numbered)? {
        return Err(unread(bad));
    }
    let user = name(alloc, first(&segments))?;
    Ok(Request {
        caller: caller(message.field(b"Authorization")),
        wanted: Wanted::Trash(asked(route, method, user, item.unwrap_or(NodeId::new(0)))),
    })
}

// The number of an item.
fn item(segments: &[Vec<u8>]) -> Option<NodeId>
    ensures { result ≡ option_and_then number_of (slice_get (map (λ segment. segment.items) segments.now) 2) }
{
    match segments {
        [_, _, item, ..] => match number_in(item) {
            Some(number) => Some(NodeId::new(number)),
            None => None,
        },
        _ => None,
    }
}

// The first field that can't be read, of those that the method reads there and the number of the item.
fn bad_parameter(
    alloc: Global,
    route: Route,
    method: Method,
    message: &Message,
    user: &[u8],
    numbered: bool,
) -> Result<Option<Parameter>, AllocError>
    requires user { user.now ≡ trash_user message.now }
    requires numbered { numbered ≡ is_some (trash_item message.now) }
    ensures { IfOk result (λ bad. trash_parameter_refusal route method message.now ≡ option_and_then (λ bad. Some (BadParameter bad)) bad) }
{
    match (route, method) {
        (Route::Trash, Method::Delete) if has_bad_depth(message) => Ok(Some(Parameter::Depth)),
        (Route::TrashItem, Method::Delete) => Ok(bad_drop(message, numbered)),
        (Route::TrashItem, Method::Move) => match bad_back(alloc, message, user)? {
            Some(bad) => Ok(Some(bad)),
            None => Ok(bad_item(numbered)),
        },
        _ => Ok(None),
    }
}

// The first of an item to drop.
fn bad_drop(message: &Message, numbered: bool) -> Option<Parameter>
    requires { numbered ≡ is_some (trash_item message.now) }
    ensures { option_or (depth_refusal message.now) (item_refusal message.now) ≡ option_and_then (λ bad. Some (BadParameter bad)) result }
{
    if has_bad_depth(message) {
        Some(Parameter::Depth)
    } else {
        bad_item(numbered)
    }
}

fn bad_item(numbered: bool) -> Option<Parameter>
    ensures { (if numbered then None else Some (BadParameter parameter.Id)) ≡ option_and_then (λ bad. Some (BadParameter bad)) result }
{
    if numbered { None } else { Some(Parameter::Id) }
}

// The first field of a restoration that can't be read.
fn bad_back(alloc: Global, message: &Message, user: &[u8]) -> Result<Option<Parameter>, AllocError>
    requires { user.now ≡ trash_user message.now }
    ensures { IfOk result (λ bad. back_refusal message.now ≡ option_and_then (λ bad. Some (BadParameter bad)) bad) }
{
    if !has_back(alloc, message, user)? {
        return Ok(Some(Parameter::Destination));
    }
    if has_bad_overwrite(message) {
        return Ok(Some(Parameter::Overwrite));
    }
    if has_bad_depth(message) {
        return Ok(Some(Parameter::Depth));
    }
    Ok(None)
}

// Whether there is a destination, and the user's items come back there.
fn has_back(alloc: Global, message: &Message, user: &[u8]) -> Result<bool, AllocError>
    ensures { IfOk result (λ has. has ≡ option_map_or (is_there user.now) (field (codes "Destination") message.now) false) }
{
    match message.field(b"Destination") {
        Some(value) => is_back(alloc, user, value),
        None => Ok(false),
    }
}

fn is_back(alloc: Global, user: &[u8], value: &[u8]) -> Result<bool, AllocError>
    ensures { IfOk result (λ is. is ≡ is_there user.now value.now) }
{
    if has_query(value) {
        Ok(false)
    } else {
        restores(alloc, user, value)
    }
}

// What is asked. An item that has no number is refused before.
fn asked(route: Route, method: Method, user: Name, item: NodeId) -> TrashAsk
    ensures { result ≡ trash_ask route method user item }
{
    match (route, method) {
        (Route::Trash, Method::Delete) => TrashAsk::Empty(user),
        (Route::TrashItem, Method::Delete) => TrashAsk::Drop { user, item },
        (Route::TrashItem, Method::Move) => TrashAsk::Restore { user, item },
        _ => TrashAsk::List(user),
    }
}
