//! The bytes of answers.

ghost use Rattle.std.specs.Prelude.{◌≡◌, ◌++◌, IfOk, codes, length};
ghost use Rattle.std.specs.String.{string_bytes};
ghost use Rattle.nf_dav.specs.Reply.{own_line as own, allow_line as allowing, close_line as closing, continue_reply, head_bytes, items_reply, json_reply, plain_reply, refusal_reply, listing_reply, made_reply, share_reply, shares_reply, versions_reply, done_reply, file_head as head_of_file};

use crate::listings::{items_text, listing_text, versions_text};
use crate::refusals::refusal_text;
use crate::words::status;
use nf_ocs::{plain_text, share_text, shares_text};
use nf_routes::allow;
use nf_words::{Denial, Items, Listing, Route, ShareLine, ShareLines, Versions};
use std::alloc::{AllocError, Global};

/// How a refusal is written.
#[derive(Clone, Copy)]
pub struct Manner {
    /// It says that it ends the session.
    pub close: bool,
    /// It answers an OCS request, whose envelope it has.
    pub ocs: bool,
    /// It answers a HEAD: its body is told and not sent.
    pub head_only: bool,
}

/// The answer of a denial.
pub fn refusal(alloc: Global, denial: &Denial, manner: Manner) -> Result<Vec<u8>, AllocError>
    ensures { IfOk result (λ reply. reply.items ≡ refusal_reply manner denial.now) }
{
    let body = refusal_text(alloc, denial, manner.ocs)?;
    let own_line = own_line(alloc, denial)?;
    let head = json_head(alloc, status(denial), manner.close, &own_line, &body)?;
    if manner.head_only {
        Ok(head.into_bytes())
    } else {
        joined(&head, body.as_bytes())
    }
}

/// The answer that invites a body, whose sender waits for it.
pub fn continue_answer() -> &'static [u8]
    ensures { result.now ≡ continue_reply }
{
    b"HTTP/1.1 100 Continue\r\n\r\n"
}

/// The answer to what is listed. `close` says here and below that it ends the session.
pub fn listing(alloc: Global, listing: &Listing, close: bool) -> Result<Vec<u8>, AllocError>
    ensures { IfOk result (λ reply. reply.items ≡ listing_reply close listing.now) }
{
    json(alloc, &listing_text(alloc, listing)?, close)
}

/// The answer to what is in the trash.
pub fn items(alloc: Global, items: &Items, close: bool) -> Result<Vec<u8>, AllocError>
    ensures { IfOk result (λ reply. reply.items ≡ items_reply close items.now) }
{
    json(alloc, &items_text(alloc, items)?, close)
}

/// The answer to which versions a file has.
pub fn versions(alloc: Global, versions: &Versions, close: bool) -> Result<Vec<u8>, AllocError>
    ensures { IfOk result (λ reply. reply.items ≡ versions_reply close versions.now) }
{
    json(alloc, &versions_text(alloc, versions)?, close)
}

/// The answer to what is asked about one share.
pub fn share(alloc: Global, share: &ShareLine, close: bool) -> Result<Vec<u8>, AllocError>
    ensures { IfOk result (λ reply. reply.items ≡ share_reply close share.now) }
{
    json(alloc, &share_text(alloc, share)?, close)
}

/// That about some shares.
pub fn shares(alloc: Global, shares: &ShareLines, close: bool) -> Result<Vec<u8>, AllocError>
    ensures { IfOk result (λ reply. reply.items ≡ shares_reply close shares.now) }
{
    json(alloc, &shares_text(alloc, shares)?, close)
}

/// And that where there is nothing more to tell.
pub fn plain(alloc: Global, close: bool) -> Result<Vec<u8>, AllocError>
    ensures { IfOk result (λ reply. reply.items ≡ plain_reply close) }
{
    json(alloc, &plain_text(alloc)?, close)
}

// An answer whose body is that JSON.
fn json(alloc: Global, body: &String, close: bool) -> Result<Vec<u8>, AllocError>
    ensures { IfOk result (λ reply. reply.items ≡ json_reply close (string_bytes body.now)) }
{
    let head = json_head(alloc, "200 OK", close, "", body)?;
    joined(&head, body.as_bytes())
}

/// The answer to what was made.
pub fn made(alloc: Global, close: bool) -> Result<Vec<u8>, AllocError>
    ensures { IfOk result (λ reply. reply.items ≡ made_reply close) }
{
    let close = close_line(close);
    let head = format!(in alloc; "HTTP/1.1 201 Created\r\n{close}Content-Length: 0\r\n\r\n")?;
    Ok(head.into_bytes())
}

/// The answer to what was done.
pub fn done(alloc: Global, close: bool) -> Result<Vec<u8>, AllocError>
    ensures { IfOk result (λ reply. reply.items ≡ done_reply close) }
{
    let close = close_line(close);
    let head = format!(in alloc; "HTTP/1.1 204 No Content\r\n{close}\r\n")?;
    Ok(head.into_bytes())
}

/// The head of an answer with a file of that many bytes, which follow it.
pub fn file_head(alloc: Global, size: u64, close: bool) -> Result<Vec<u8>, AllocError>
    ensures { IfOk result (λ reply. reply.items ≡ head_of_file close size) }
{
    let head = head(alloc, "200 OK", close, "", "application/octet-stream", size)?;
    Ok(head.into_bytes())
}

// The head of an answer whose body is that JSON.
fn json_head(
    alloc: Global,
    status: &str,
    close: bool,
    own_line: &str,
    body: &String,
) -> Result<String, AllocError>
    ensures { IfOk result (λ head. string_bytes head
        ≡ head_bytes status.now close own_line.now (codes "application/json") (length (string_bytes body.now))) }
{
    head(
        alloc,
        status,
        close,
        own_line,
        "application/json",
        body.len() as u64,
    )
}

fn head(
    alloc: Global,
    status: &str,
    close: bool,
    own_line: &str,
    kind: &str,
    length: u64,
) -> Result<String, AllocError>
    ensures { IfOk result (λ text. string_bytes text ≡ head_bytes status.now close own_line.now kind.now length) }
{
    let close = close_line(close);
    format!(in alloc;
        "HTTP/1.1 {status}\r\n{close}{own_line}Content-Type: {kind}\r\nContent-Length: {length}\r\n\r\n"
    )
}

fn joined(head: &String, body: &[u8]) -> Result<Vec<u8>, AllocError>
    ensures { IfOk result (λ reply. reply.items ≡ string_bytes head.now ++ body.now) }
{
    let mut reply = head.as_bytes().to_vec(*head.allocator())?;
    reply.extend_from_slice(body)?;
    Ok(reply)
}

fn close_line(close: bool) -> &'static str
    ensures { result.now ≡ closing close }
{
    if close { "Connection: close\r\n" } else { "" }
}

// The line that only some denials have.
fn own_line(alloc: Global, denial: &Denial) -> Result<String, AllocError>
    ensures { IfOk result (λ line. string_bytes line ≡ own denial.now) }
{
    match denial {
        Denial::Exists(route) | Denial::Method(route) => allow_line(alloc, *route),
        Denial::Token => String::from_str(alloc, "WWW-Authenticate: Bearer\r\n"),
        _ => Ok(String::new(alloc)),
    }
}

fn allow_line(alloc: Global, route: Route) -> Result<String, AllocError>
    ensures { IfOk result (λ line. string_bytes line ≡ allowing route) }
{
    let methods = allow(route);
    format!(in alloc; "Allow: {methods}\r\n")
}
