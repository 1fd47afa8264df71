//! The bytes of a message.

ghost use Rattle.std.specs.Prelude.{◌≡◌, ◌+◌, ◌%◌, ◌++◌, IfOk, codes};
ghost use Rattle.std.specs.String.{string_bytes};
ghost use Rattle.nf_generate.specs.Writing.{bearer_line as spec_bearer_line, content as spec_content, destination as spec_destination, head as spec_head, length_line as spec_length_line, message_bytes, path as spec_path, put_bytes, request_line as spec_request_line, root as spec_root, share_body as spec_share_body, share_bytes};

use crate::drawing::{Act, Drawing, User};
use std::alloc::{AllocError, Global};

/// Where shares are posted to.
const SHARES: &str = "/ocs/v2.php/apps/files_sharing/api/v1/shares";

/// The line that a request about shares must have.
const OCS_LINE: &str = "OCS-APIRequest: true\r\n";

/// The message of that number that says so.
pub(crate) fn message_bytes(
    alloc: Global,
    index: u64,
    drawing: Drawing,
) -> Result<Vec<u8>, AllocError>
    ensures { IfOk result (λ bytes. bytes.items ≡ message_bytes index drawing) }
{
    let user = drawing.user;
    let file = path(alloc, user, "/f", drawing.file)?;
    match drawing.act {
        Act::Put { size } => put(alloc, &file, user, index, size),
        Act::Get => bare(alloc, "GET", &file, user, ""),
        Act::Delete => bare(alloc, "DELETE", &file, user, ""),
        Act::Move => moved(alloc, &file, user, drawing.file),
        Act::Share => share(alloc, user, drawing.file),
        Act::List => bare(alloc, "GET", &root(alloc, user)?, user, ""),
    }
}

// The path of a user's file, whose name is that letter and a number.
fn path(alloc: Global, user: User, letter: &str, file: u64) -> Result<String, AllocError>
    ensures { IfOk result (λ path. string_bytes path ≡ spec_path user letter.now file) }
{
    let name = user.name();
    format!(in alloc; "/remote.php/dav/files/{name}{letter}{file}")
}

fn root(alloc: Global, user: User) -> Result<String, AllocError>
    ensures { IfOk result (λ path. string_bytes path ≡ spec_root user) }
{
    let name = user.name();
    format!(in alloc; "/remote.php/dav/files/{name}/")
}

fn destination(alloc: Global, user: User, file: u64) -> Result<String, AllocError>
    ensures { IfOk result (λ line. string_bytes line ≡ spec_destination user file) }
{
    let path = path(alloc, user, "/m", file)?;
    format!(in alloc; "Destination: {path}\r\n")
}

// The head of a message with a body of so many bytes. Own lines end with CRLF.
fn head(
    alloc: Global,
    method: &str,
    target: &str,
    user: User,
    own: &str,
    size: u64,
) -> Result<String, AllocError>
    ensures { IfOk result (λ head. string_bytes head ≡ spec_head method.now target.now user own.now size) }
{
    let first = request_line(alloc, method, target)?;
    let bearer = bearer_line(alloc, user)?;
    let length = length_line(alloc, size)?;
    joined(alloc, &first, &bearer, own, &length)
}

fn request_line(alloc: Global, method: &str, target: &str) -> Result<String, AllocError>
    ensures { IfOk result (λ line. string_bytes line ≡ spec_request_line method.now target.now) }
{
    format!(in alloc; "{method} {target} HTTP/1.1\r\n")
}

fn bearer_line(alloc: Global, user: User) -> Result<String, AllocError>
    ensures { IfOk result (λ line. string_bytes line ≡ spec_bearer_line user) }
{
    let name = user.name();
    format!(in alloc; "Authorization: Bearer {name}-1\r\n")
}

fn length_line(alloc: Global, size: u64) -> Result<String, AllocError>
    ensures { IfOk result (λ line. string_bytes line ≡ spec_length_line size) }
{
    format!(in alloc; "Content-Length: {size}\r\n")
}

// These lines and the empty one behind them.
fn joined(
    alloc: Global,
    first: &String,
    bearer: &String,
    own: &str,
    length: &String,
) -> Result<String, AllocError>
    ensures { IfOk result (λ head. string_bytes head
        ≡ string_bytes first.now ++ (string_bytes bearer.now ++ (own.now ++ (string_bytes length.now ++ codes "\r\n")))) }
{
    format!(in alloc; "{first}{bearer}{own}{length}\r\n")
}

// A message without a body.
fn bare(
    alloc: Global,
    method: &str,
    target: &String,
    user: User,
    own: &str,
) -> Result<Vec<u8>, AllocError>
    ensures { IfOk result (λ bytes. bytes.items ≡ spec_head method.now (string_bytes target.now) user own.now 0) }
{
    let head = head(alloc, method, target.as_str(), user, own, 0)?;
    Ok(head.into_bytes())
}

// A move to the other letter.
fn moved(alloc: Global, from: &String, user: User, file: u64) -> Result<Vec<u8>, AllocError>
    ensures { IfOk result (λ bytes. bytes.items ≡ spec_head (codes "MOVE") (string_bytes from.now) user (spec_destination user file) 0) }
{
    let line = destination(alloc, user, file)?;
    bare(alloc, "MOVE", from, user, line.as_str())
}

fn share(alloc: Global, user: User, file: u64) -> Result<Vec<u8>, AllocError>
    ensures { IfOk result (λ bytes. bytes.items ≡ share_bytes user file) }
{
    let body = share_body(alloc, user, file)?;
    let head = head(alloc, "POST", SHARES, user, OCS_LINE, body.len() as u64)?;
    let mut bytes = head.into_bytes();
    bytes.extend_from_slice(body.as_bytes())?;
    Ok(bytes)
}

fn share_body(alloc: Global, user: User, file: u64) -> Result<String, AllocError>
    ensures { IfOk result (λ body. string_bytes body ≡ spec_share_body user file) }
{
    let other = user.behind().name();
    format!(in alloc; "path=%2Ff{file}&shareType=0&shareWith={other}&permissions=3")
}

fn put(
    alloc: Global,
    file: &String,
    user: User,
    index: u64,
    size: u64,
) -> Result<Vec<u8>, AllocError>
    ensures { IfOk result (λ bytes. bytes.items ≡ put_bytes (string_bytes file.now) user index size) }
{
    let head = head(alloc, "PUT", file.as_str(), user, "", size)?;
    let mut bytes = head.into_bytes();
    bytes.extend_from_slice(&content(alloc, index, size)?)?;
    Ok(bytes)
}

fn content(alloc: Global, index: u64, size: u64) -> Result<Vec<u8>, AllocError>
    ensures { IfOk result (λ bytes. bytes.items ≡ spec_content index size) }
{
    let mut bytes = Vec::new(alloc);
    for at in 0..size {
        bytes.push(byte(index, at))?;
    }
    Ok(bytes)
}

fn byte(index: u64, at: u64) -> u8
    ensures { result ≡ (index + at) % 256 }
{
    (index.wrapping_add(at) % 256) as u8
}
