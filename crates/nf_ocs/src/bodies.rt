//! The head and the body of an OCS request.

ghost use Rattle.std.specs.Prelude.{◌≡◌, ◌<◌, IfSome, codes, length, position};
ghost use Rattle.std.specs.List.{before_first};
ghost use Rattle.nf_base.specs.Naming.{same_ignoring_case};
ghost use Rattle.nf_ocs.specs.Bodies.{GivesBody, body_of, is_form as are_form, is_json as says_json, is_semicolon, media_type as type_of, says_ocs as says};

use crate::Unread;
use crate::sent::{Body, object_in};
use nf_base::MAX_OCS_BODY;
use nf_http::{Message, without_blanks};
use nf_words::Denial;
use std::alloc::Global;

/// Whether a message says that it is an OCS request.
pub(crate) fn says_ocs(message: &Message) -> bool
    ensures { result ≡ says message.now }
{
    match message.field(b"OCS-APIRequest") {
        Some(value) => value.eq_ignore_ascii_case(b"true"),
        None => false,
    }
}

/// The body of a message, as far as it was handed over.
pub(crate) fn body<'a>(
    alloc: Global,
    message: &Message,
    bytes: &'a [u8],
) -> Result<Body<'a>, Unread>
    ensures { GivesBody (body_of message.now bytes.entry.now) result }
{
    if message.length() > MAX_OCS_BODY {
        return Err(Unread::Refused(Denial::Body));
    }
    let kind = media_type(message);
    if is_form(kind, bytes) {
        return Ok(Body::Form(bytes));
    }
    if !is_json(kind) {
        return Err(Unread::Refused(Denial::Body));
    }
    match object_in(alloc, bytes)? {
        Some(object) => Ok(Body::Json(object)),
        None => Err(Unread::Refused(Denial::Body)),
    }
}

fn media_type(message: &Message) -> &[u8]
    ensures { result.now ≡ type_of message.now }
{
    match message.field(b"Content-Type") {
        Some(value) => without_blanks(before_semicolon(value)),
        None => &[],
    }
}

fn before_semicolon(value: &[u8]) -> &[u8]
    ensures { result.now ≡ before_first is_semicolon value.now }
{
    match first_semicolon(value) {
        Some(at) => &value[..at],
        None => value,
    }
}

fn first_semicolon(value: &[u8]) -> Option<usize>
    ensures value { result ≡ position is_semicolon value.now }
    ensures within { IfSome result (λ at. at < length value.now) }
{
    value.iter().position(|byte| *byte == b';')
}

fn is_form(kind: &[u8], bytes: &[u8]) -> bool
    ensures { result ≡ are_form kind.now bytes.now }
{
    bytes.is_empty()
        || kind.is_empty()
        || kind.eq_ignore_ascii_case(b"application/x-www-form-urlencoded")
}

fn is_json(kind: &[u8]) -> bool
    ensures { result ≡ says_json kind.now }
{
    kind.eq_ignore_ascii_case(b"application/json")
}
