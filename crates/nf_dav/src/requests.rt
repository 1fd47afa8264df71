//! The request of a message.

ghost use Rattle.std.specs.Prelude.{◌≡◌, ◌≤◌, None, Some, Ok, IfOk, codes, if◌then◌else◌, option_and_then, option_copied};
ghost use Rattle.nf_base.specs.declared.limits.TheConstants.{MAX_BODY};
ghost use Rattle.nf_base.specs.Naming.{name_fault, same_ignoring_case};
ghost use Rattle.nf_http.specs.Head.{length_of};
ghost use Rattle.nf_routes.specs.Mounts.{route_of};
ghost use Rattle.nf_routes.specs.Targets.{segments_of};
ghost use Rattle.nf_words.specs.History.{MayWant};
ghost use Rattle.nf_words.specs.declared.answer.Denial.TheVariants.{Body};
ghost use Rattle.nf_dav.specs.Asked.{Gives, GivesRequest, IsGiven, body_refusal, caller_by as caller_by_front, caller_of_value, files_refusal, files_request as request_there, first_of, front_on as front_of_route, is_stray as strays, ocs_request as request_of_ocs, other_request as request_elsewhere, second_spot, target_spot, wanted_of, wants_body as longest_wanted};

use crate::fields::{overwrites, second_segments};
use crate::fronts::{Front, first, front_on};
use crate::spots::{name, spot};
use crate::trash::{is_trash_route, trash_request};
use crate::upload_requests::upload_request;
use crate::version_requests::{is_version_route, version_request};
use nf_base::{Digest, MAX_OCS_BODY};
use nf_http::Message;
use nf_ocs::{Unread, is_ocs_route};
use nf_routes::{Method, Routes, is_ocs, method_of, segments, takes};
use nf_words::{Caller, Denial, Request, Route, Spot, Wanted};
use std::alloc::{AllocError, Global};

/// Why a message has no request.
#[derive(Drop)]
pub enum Unasked {
    /// It is refused before the site is asked.
    Refused(Denial),
    /// There is no memory.
    Memory,
}

impl From<AllocError> for Unasked {
    ghost use Rattle.nf_dav.specs.declared.requests.Unasked.TheVariants.{Memory};

    ghost from_gives = { λ _ unasked. unasked ≡ Memory };

    fn from(_: AllocError) -> Self {
        Unasked::Memory
    }
}

/// The longest body that is taken before the request of a message is looked for. Only parameters of an OCS request stand in a body; a
/// longer one isn't looked at.
pub fn wants_body(message: &Message) -> usize
    ensures { result ≡ longest_wanted message.now }
{
    if is_ocs(message.target()) {
        MAX_OCS_BODY
    } else {
        0
    }
}

/// The request of a message; or why it has none, the first that holds: there is no such route, the route doesn't have the method, an OCS
/// request doesn't say that it is one, the body isn't taken, a field or a parameter can't be read, a name is bad. Of a body that is longer
/// than `wants_body` no byte is handed over.
#[tactic(auto, unfolding(crate::specs::Asked::request_of))]
pub fn request(
    routes: &Routes,
    alloc: Global,
    message: &Message,
    body: &[u8],
) -> Result<Request, Unasked>
    ensures gives { GivesRequest message.now body.now result }
    ensures may_want { IfOk result MayWant }
{
    let Some(route) = routes.find(alloc, message.target())? else {
        return Err(Unasked::Refused(Denial::NotFound));
    };
    let method = method_of(message.method());
    if is_stray(route, method) {
        return Err(Unasked::Refused(Denial::NotFound));
    }
    let Some(method) = method else {
        return Err(Unasked::Refused(Denial::Method(route)));
    };
    if !takes(route, method) {
        return Err(Unasked::Refused(Denial::Method(route)));
    }
    match front_on(route) {
        Some(front) => files_request(routes, alloc, front, method, message),
        None => other_request(routes, alloc, route, method, message, body),
    }
}

// The only chunk that is moved is all of them.
fn is_stray(route: Route, method: Option<Method>) -> bool
    ensures { result ≡ strays route method }
{
    matches!((route, method), (Route::Chunk, Some(Method::Move)))
}

// A request for files.
fn files_request(
    routes: &Routes,
    alloc: Global,
    front: Front,
    method: Method,
    message: &Message,
) -> Result<Request, Unasked>
    requires { option_and_then front_of_route (route_of message.now.target) ≡ Some front }
    ensures gives { Gives (files_refusal front method message.now) (λ request. request_there front method message.now ≡ Ok request) result }
    ensures short { length_of message.now ≤ MAX_BODY }
{
    if takes_no_body(method, message.length()) {
        return Err(Unasked::Refused(Denial::Body));
    }
    let second = second_segments(routes, alloc, front, method, message)?;
    let segments = segments(alloc, message.target())?;
    let source = spot(alloc, front, &segments)?;
    let target = spot(alloc, front, &second)?;
    Ok(Request {
        caller: caller_by(alloc, front, first(&segments), message)?,
        wanted: wanted(front, method, message, source, target),
    })
}

// A request on a route where no files are.
fn other_request(
    routes: &Routes,
    alloc: Global,
    route: Route,
    method: Method,
    message: &Message,
    body: &[u8],
) -> Result<Request, Unasked>
    ensures gives { IsGiven (request_elsewhere route method message.now body.now) result }
    ensures may_want { IfOk result MayWant }
{
    if is_ocs_route(route) {
        ocs_request(alloc, route, method, message, body)
    } else if is_trash_route(route) {
        trash_request(alloc, route, method, message)
    } else if is_version_route(route) {
        version_request(alloc, route, method, message)
    } else {
        upload_request(routes, alloc, method, message)
    }
}

// A request about shares, users and groups.
fn ocs_request(
    alloc: Global,
    route: Route,
    method: Method,
    message: &Message,
    body: &[u8],
) -> Result<Request, Unasked>
    ensures gives { IsGiven (request_of_ocs route method message.now body.now) result }
    ensures may_want { IfOk result MayWant }
{
    match nf_ocs::read(alloc, route, method, message, body) {
        Ok(wanted) => Ok(Request {
            caller: caller(message.field(b"Authorization")),
            wanted,
        }),
        Err(Unread::Refused(denial)) => Err(Unasked::Refused(denial)),
        Err(Unread::Memory) => Err(Unasked::Memory),
    }
}

/// Whether the method is refused for its body.
pub(crate) fn takes_no_body(method: Method, length: usize) -> bool
    ensures { body_refusal method length ≡ (if result then Some Body else None) }
{
    method == Method::Mkcol && length > 0
}

// What is wanted, with the second place of a method that has two. The routes to files have no POST.
fn wanted(front: Front, method: Method, message: &Message, source: Spot, target: Spot) -> Wanted
    requires source { source ≡ target_spot front message.now }
    requires target { target ≡ second_spot front method message.now }
    ensures { result ≡ wanted_of front method message.now }
{
    match method {
        Method::Get | Method::Post => Wanted::Get(source),
        Method::Put => Wanted::Put {
            spot: source,
            length: message.length() as u64,
        },
        Method::Mkcol => Wanted::Mkcol(source),
        Method::Delete => Wanted::Delete(source),
        Method::Move => Wanted::Move {
            source,
            target,
            overwrite: overwrites(message),
        },
        Method::Copy => Wanted::Copy {
            source,
            target,
            overwrite: overwrites(message),
        },
    }
}

// The caller of a request for files, of whose target that is the first segment: by a link, whatever the field says.
fn caller_by(
    alloc: Global,
    front: Front,
    first: &[u8],
    message: &Message,
) -> Result<Caller, Unasked>
    requires first { first.now ≡ first_of (segments_of message.now.target) }
    requires fine { name_fault first.now ≡ None }
    ensures { Gives None (λ caller. caller ≡ caller_by_front front message.now) result }
{
    match front {
        Front::User => Ok(caller(message.field(b"Authorization"))),
        Front::Link => Ok(Caller::Link(name(alloc, first)?)),
    }
}

/// The caller of an Authorization field.
pub(crate) fn caller(value: Option<&[u8]>) -> Caller
    ensures { result ≡ caller_of_value (option_copied value.entry) }
{
    let Some(value) = value else {
        return Caller::Absent;
    };
    if value.len() >= 8 && value.len() <= 135 && is_bearer(&value[..7]) {
        Caller::Token(Digest::of(&value[7..]))
    } else {
        Caller::Absent
    }
}

fn is_bearer(word: &[u8]) -> bool
    ensures { result ≡ same_ignoring_case word.now (codes "Bearer ") }
{
    word.eq_ignore_ascii_case(b"Bearer ")
}
