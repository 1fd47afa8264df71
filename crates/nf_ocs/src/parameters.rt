//! The parameters of what is asked about shares, users and groups.

ghost use Rattle.std.specs.Prelude.{◌≡◌, IfOk, map, option_and_then};
ghost use Rattle.std.specs.Char.{is_ascii_graphic};
ghost use Rattle.std.specs.List.{list_all, slice_split};
ghost use Rattle.nf_dates.specs.Dates.{end_written};
ghost use Rattle.nf_ocs.specs.Parameters.{begins_with_zero as begins_with_a_zero, id_of, is_empty as says_nothing, is_token as may_be_token, modest as may_be_quota, name_in as name_of_text, name_of, names_in, needed as is_needed, no_password as has_no_password, number_in as number_of, optional as may_be, permissions_in as permissions_of_text, permissions_of, permitted as may_be_permitted, quota_in as quota_of_text, quota_of, sharee_of, spot_in as spot_of_text, spot_of, token_in as token_of_text, token_of, type_in as type_of_text, type_of, until_in as until_of_text, until_of, user_of, without_front as behind_front};
ghost use Rattle.nf_ocs.specs.Read.{Gives};
ghost use Rattle.nf_ocs.specs.declared.Unread.TheVariants.{Refused};
ghost use Rattle.nf_words.specs.declared.answer.Denial.TheVariants.{BadParameter};
ghost use Rattle.nf_routes.specs.Targets.{is_slash, without_slash as before_slash};

use crate::Unread;
use crate::sent::{Given, Text};
use nf_base::{Digest, MAX_QUOTA, Name, NameFault, Path, Perms, ShareId};
use nf_dates::read_end;
use nf_http::read_length;
use nf_routes::{pieces, share_segment, user_segment};
use nf_words::{Denial, Parameter, Sharee, Spot, Until};
use std::alloc::{AllocError, Global};

/// What kind of recipient a share has.
#[derive(Clone, Copy)]
pub enum ShareType {
    User,
    Group,
    Link,
}

/// That a parameter is missing or can't be read.
pub(crate) fn unread(parameter: Parameter) -> Unread
    ensures { result ≡ Refused (BadParameter parameter) }
{
    Unread::Refused(Denial::BadParameter(parameter))
}

/// The text of a parameter that has to be there.
pub(crate) fn needed(parameter: Parameter, given: Given) -> Result<Text, Unread>
    ensures { Gives (is_needed parameter given) result }
{
    match given {
        Given::Text(text) => Ok(text),
        Given::Absent | Given::Other => Err(unread(parameter)),
    }
}

/// That of one that may be left out.
pub(crate) fn optional(parameter: Parameter, given: Given) -> Result<Option<Text>, Unread>
    ensures { Gives (may_be parameter given) result }
{
    match given {
        Given::Absent => Ok(None),
        Given::Text(text) => Ok(Some(text)),
        Given::Other => Err(unread(parameter)),
    }
}

fn is_empty(text: &Option<Text>) -> bool
    ensures { result ≡ says_nothing text.now }
{
    match text {
        Some(text) => text.as_bytes().is_empty(),
        None => true,
    }
}

/// A number of 1 to 19 digits, the first of several no zero.
pub fn number_in(text: &[u8]) -> Option<u64>
    ensures { result ≡ number_of text.now }
{
    if begins_with_zero(text) {
        None
    } else {
        read_length(text)
    }
}

fn begins_with_zero(text: &[u8]) -> bool
    ensures { result ≡ begins_with_a_zero text.now }
{
    text.len() > 1 && text.starts_with(b"0")
}

/// The share that the path of a target names.
pub(crate) fn id(alloc: Global, target: &[u8]) -> Result<ShareId, Unread>
    ensures { Gives (id_of target.now) result }
{
    let segment = share_segment(alloc, target)?;
    match number_in(&segment) {
        Some(number) => Ok(ShareId::new(number)),
        None => Err(unread(Parameter::Id)),
    }
}

/// The place that a path leads to, in the files of the caller.
pub(crate) fn spot(alloc: Global, path: &Text) -> Result<Spot, Unread>
    ensures { Gives (spot_of path.now) result }
{
    match Path::read(alloc, &names(alloc, path.as_bytes())?) {
        Ok(path) => Ok(Spot { user: None, path }),
        Err(NameFault::Memory) => Err(Unread::Memory),
        Err(fault) => Err(Unread::Refused(Denial::BadName(fault))),
    }
}

pub(crate) fn spot_in(alloc: Global, path: &Option<Text>) -> Result<Option<Spot>, Unread>
    ensures { Gives (spot_of_text path.now) result }
{
    match path {
        Some(path) => Ok(Some(spot(alloc, path)?)),
        None => Ok(None),
    }
}

fn names(alloc: Global, path: &[u8]) -> Result<Vec<Vec<u8>>, AllocError>
    ensures { IfOk result (λ names. map (λ name. name.items) names.items ≡ names_in path.now) }
{
    let inner = without_slash(without_front(path));
    if inner.is_empty() {
        Ok(Vec::new(alloc))
    } else {
        names_between(alloc, inner)
    }
}

fn names_between(alloc: Global, path: &[u8]) -> Result<Vec<Vec<u8>>, AllocError>
    ensures { IfOk result (λ names. map (λ name. name.items) names.items ≡ slice_split is_slash path.now) }
{
    let mut names = Vec::new(alloc);
    let pieces = pieces(alloc, path)?;
    for piece in &pieces {
        names.push(piece.to_vec(alloc)?)?;
    }
    Ok(names)
}

fn without_front(path: &[u8]) -> &[u8]
    ensures { result.now ≡ behind_front path.now }
{
    match path.strip_prefix(b"/".as_slice()) {
        Some(rest) => rest,
        None => path,
    }
}

fn without_slash(path: &[u8]) -> &[u8]
    ensures { result.now ≡ before_slash path.now }
{
    match path.strip_suffix(b"/".as_slice()) {
        Some(front) => front,
        None => path,
    }
}

/// The kind of recipient.
pub(crate) fn share_type(given: Given) -> Result<ShareType, Unread>
    ensures { Gives (type_of given) result }
{
    let text = needed(Parameter::ShareType, given)?;
    type_in(text.as_bytes())
}

fn type_in(text: &[u8]) -> Result<ShareType, Unread>
    ensures { Gives (type_of_text text.now) result }
{
    if text == b"0".as_slice() {
        Ok(ShareType::User)
    } else if text == b"1".as_slice() {
        Ok(ShareType::Group)
    } else if text == b"3".as_slice() {
        Ok(ShareType::Link)
    } else {
        Err(unread(Parameter::ShareType))
    }
}

/// Whom a share is for. Of a link what is given for that isn't looked at.
pub(crate) fn sharee(alloc: Global, kind: ShareType, given: Given) -> Result<Sharee, Unread>
    ensures { Gives (sharee_of kind given) result }
{
    match kind {
        ShareType::User => Ok(Sharee::User(name(alloc, Parameter::ShareWith, given)?)),
        ShareType::Group => Ok(Sharee::Group(name(alloc, Parameter::ShareWith, given)?)),
        ShareType::Link => Ok(Sharee::Link),
    }
}

/// The name that a parameter has to give.
pub(crate) fn name(alloc: Global, parameter: Parameter, given: Given) -> Result<Name, Unread>
    ensures { Gives (name_of parameter given) result }
{
    let text = needed(parameter, given)?;
    name_in(alloc, parameter, text.as_bytes())
}

fn name_in(alloc: Global, parameter: Parameter, text: &[u8]) -> Result<Name, Unread>
    ensures { Gives (name_of_text parameter text.now) result }
{
    match Name::read(alloc, text) {
        Ok(name) => Ok(name),
        Err(NameFault::Memory) => Err(Unread::Memory),
        Err(_) => Err(unread(parameter)),
    }
}

/// The user that the path of a target names.
pub(crate) fn user(alloc: Global, target: &[u8]) -> Result<Name, Unread>
    ensures { Gives (user_of target.now) result }
{
    match Name::read(alloc, &user_segment(alloc, target)?) {
        Ok(name) => Ok(name),
        Err(NameFault::Memory) => Err(Unread::Memory),
        Err(fault) => Err(Unread::Refused(Denial::BadName(fault))),
    }
}

/// The permissions that are named.
pub(crate) fn permissions(given: Given) -> Result<Option<Perms>, Unread>
    ensures { Gives (permissions_of given) result }
{
    let text = optional(Parameter::Permissions, given)?;
    permissions_in(&text)
}

fn permissions_in(text: &Option<Text>) -> Result<Option<Perms>, Unread>
    ensures { Gives (permissions_of_text text.now) result }
{
    let Some(text) = text else {
        return Ok(None);
    };
    match permitted_in(text.as_bytes()) {
        Some(perms) => Ok(Some(perms)),
        None => Err(unread(Parameter::Permissions)),
    }
}

fn permitted_in(text: &[u8]) -> Option<Perms>
    ensures { result ≡ option_and_then may_be_permitted (number_of text.now) }
{
    permitted(number_in(text)?)
}

fn permitted(number: u64) -> Option<Perms>
    ensures { result ≡ may_be_permitted number }
{
    if 1 <= number && number <= 31 {
        Perms::read(number as u8)
    } else {
        None
    }
}

/// What becomes of the end of a share.
pub(crate) fn until(given: Given) -> Result<Until, Unread>
    ensures { Gives (until_of given) result }
{
    let date = optional(Parameter::ExpireDate, given)?;
    until_in(&date)
}

fn until_in(date: &Option<Text>) -> Result<Until, Unread>
    ensures { Gives (until_of_text date.now) result }
{
    let Some(date) = date else {
        return Ok(Until::Keep);
    };
    if date.as_bytes().is_empty() {
        return Ok(Until::Never);
    }
    match read_end(date.as_bytes()) {
        Some(end) => Ok(Until::At(end)),
        None => Err(unread(Parameter::ExpireDate)),
    }
}

/// That there is no password.
pub(crate) fn no_password(given: Given) -> Result<(), Unread>
    ensures { Gives (has_no_password given) result }
{
    let password = optional(Parameter::Password, given)?;
    if is_empty(&password) {
        Ok(())
    } else {
        Err(unread(Parameter::Password))
    }
}

/// The digest of the token that a parameter has to give.
pub(crate) fn token(parameter: Parameter, given: Given) -> Result<Digest, Unread>
    ensures { Gives (token_of parameter given) result }
{
    let text = needed(parameter, given)?;
    token_in(parameter, text.as_bytes())
}

fn token_in(parameter: Parameter, text: &[u8]) -> Result<Digest, Unread>
    ensures { Gives (token_of_text parameter text.now) result }
{
    if is_token(text) {
        Ok(Digest::of(text))
    } else {
        Err(unread(parameter))
    }
}

fn is_token(text: &[u8]) -> bool
    ensures { result ≡ may_be_token text.now }
{
    1 <= text.len() && text.len() <= 128 && is_visible(text)
}

fn is_visible(text: &[u8]) -> bool
    ensures { result ≡ list_all is_ascii_graphic text.now }
{
    text.iter().all(|byte| byte.is_ascii_graphic())
}

/// The quota that a parameter has to give.
pub(crate) fn quota(parameter: Parameter, given: Given) -> Result<u64, Unread>
    ensures { Gives (quota_of parameter given) result }
{
    let text = needed(parameter, given)?;
    quota_in(parameter, text.as_bytes())
}

fn quota_in(parameter: Parameter, text: &[u8]) -> Result<u64, Unread>
    ensures { Gives (quota_of_text parameter text.now) result }
{
    match modest_in(text) {
        Some(quota) => Ok(quota),
        None => Err(unread(parameter)),
    }
}

fn modest_in(text: &[u8]) -> Option<u64>
    ensures { result ≡ option_and_then may_be_quota (number_of text.now) }
{
    modest(number_in(text)?)
}

fn modest(number: u64) -> Option<u64>
    ensures { result ≡ may_be_quota number }
{
    if number <= MAX_QUOTA {
        Some(number)
    } else {
        None
    }
}
