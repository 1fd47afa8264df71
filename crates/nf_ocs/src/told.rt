//! The JSON of what is told of shares.

ghost use Rattle.std.specs.Prelude.{◌≡◌, IfOk, map, decimal, option_and_then, option_copied, option_map};
ghost use Rattle.std.specs.String.{string_bytes};
ghost use Rattle.serde_json.specs.View.{view};
ghost use Rattle.nf_dates.specs.Dates.{end_date as date_of_end};
ghost use Rattle.nf_json.specs.Objects.{data_of};
ghost use Rattle.nf_ocs.specs.Told.{envelope as envelope_of, meta_object, name_in, plain_body, share_body, share_object, shares_array, shares_body, text_or_null, token_in, type_number as number_of_type};

use nf_base::{Moment, Name, ShareId};
use nf_dates::end_date;
use nf_json::{Said, object_of, text_of};
use nf_words::{Recipient, ShareLine, ShareLines};
use serde_json::{Map, Value, put};
use std::alloc::{AllocError, Global};

/// The text of a share.
#[tactic(auto, using(crate::proofs::Floats::share_has_no_float))]
pub fn share_text(alloc: Global, share: &ShareLine) -> Result<String, AllocError>
    ensures { IfOk result (λ text. string_bytes text ≡ share_body share.now) }
{
    envelope(alloc, share_value(alloc, share)?)?.to_string(alloc)
}

/// That of some shares.
#[tactic(auto, using(crate::proofs::Floats::shares_have_no_float))]
pub fn shares_text(alloc: Global, shares: &ShareLines) -> Result<String, AllocError>
    ensures { IfOk result (λ text. string_bytes text ≡ shares_body shares.now) }
{
    envelope(alloc, shares_value(alloc, shares)?)?.to_string(alloc)
}

/// And that of nothing.
pub fn plain_text(alloc: Global) -> Result<String, AllocError>
    ensures { IfOk result (λ text. string_bytes text ≡ plain_body) }
{
    envelope(alloc, Value::Array(Vec::new(alloc)))?.to_string(alloc)
}

fn envelope(alloc: Global, inner: Value) -> Result<Value, AllocError>
    ensures { IfOk result (λ value. view value ≡ envelope_of (view inner)) }
{
    let mut told = Map::new(alloc);
    put(&mut told, alloc, "data", inner)?;
    put(&mut told, alloc, "meta", meta(alloc)?)?;
    let mut ocs = Map::new(alloc);
    put(&mut ocs, alloc, "ocs", Value::Object(told))?;
    Ok(Value::Object(ocs))
}

fn meta(alloc: Global) -> Result<Value, AllocError>
    ensures { IfOk result (λ value. view value ≡ meta_object) }
{
    object_of(
        alloc,
        &[
            ("message", Said::Text("OK")),
            ("status", Said::Text("ok")),
            ("statuscode", Said::Number(200)),
        ],
    )
}

fn shares_value(alloc: Global, shares: &ShareLines) -> Result<Value, AllocError>
    ensures { IfOk result (λ value. view value ≡ shares_array shares.now) }
{
    Ok(Value::Array(share_values(alloc, shares.lines())?))
}

fn share_values(alloc: Global, shares: &[ShareLine]) -> Result<Vec<Value>, AllocError>
    ensures { IfOk result (λ values. map view values.items ≡ map share_object shares.now) }
{
    let mut values = Vec::with_capacity(alloc, shares.len())?;
    for share in shares {
        values.push(share_value(alloc, share)?)?;
    }
    Ok(values)
}

fn share_value(alloc: Global, share: &ShareLine) -> Result<Value, AllocError>
    ensures { IfOk result (λ value. view value ≡ share_object share.now) }
{
    let expiration = expiration(alloc, share.until)?;
    let id = number_text(alloc, share.id)?;
    let parent = parent_text(alloc, share.parent)?;
    value_with(alloc, share, &expiration, &id, &parent)
}

// The object of a share, with the texts of its dates and numbers.
fn value_with<'a>(
    alloc: Global,
    share: &'a ShareLine,
    expiration: &'a Option<String>,
    id: &'a String,
    parent: &'a Option<String>,
) -> Result<Value, AllocError>
    requires expiration { option_map string_bytes expiration.now ≡ option_and_then date_of_end share.now.until }
    requires id { string_bytes id.now ≡ decimal share.now.id }
    requires parent { option_map string_bytes parent.now ≡ option_map decimal share.now.parent }
    ensures { IfOk result (λ value. view value ≡ share_object share.entry.now) }
{
    object_of(
        alloc,
        &[
            ("expiration", said(expiration)),
            ("file_source", Said::Number(share.node.number())),
            ("id", Said::Text(id)),
            ("parent", said(parent)),
            (
                "permissions",
                Said::Number(u64::from(share.permissions.bits())),
            ),
            ("share_type", Said::Number(type_number(&share.to))),
            ("share_with", name(&share.to)),
            ("token", token(&share.to)),
            ("uid_file_owner", Said::Text(text_of(&share.owner))),
            ("uid_owner", Said::Text(text_of(&share.initiator))),
        ],
    )
}

fn said(text: &Option<String>) -> Said<'_>
    ensures { data_of result ≡ text_or_null (option_map string_bytes text.now) }
{
    match text {
        Some(text) => Said::Text(text),
        None => Said::Null,
    }
}

fn expiration(alloc: Global, until: Option<Moment>) -> Result<Option<String>, AllocError>
    ensures { IfOk result (λ date. option_map string_bytes date ≡ option_and_then date_of_end until) }
{
    match until {
        Some(end) => end_date(alloc, end),
        None => Ok(None),
    }
}

fn parent_text(alloc: Global, parent: Option<ShareId>) -> Result<Option<String>, AllocError>
    ensures { IfOk result (λ text. option_map string_bytes text ≡ option_map decimal parent) }
{
    match parent {
        Some(parent) => Ok(Some(number_text(alloc, parent)?)),
        None => Ok(None),
    }
}

fn number_text(alloc: Global, share: ShareId) -> Result<String, AllocError>
    ensures { IfOk result (λ text. string_bytes text ≡ decimal share) }
{
    let number = share.number();
    format!(in alloc; "{number}")
}

fn type_number(to: &Recipient) -> u64
    ensures { result ≡ number_of_type to.now }
{
    match to {
        Recipient::User(_) => 0,
        Recipient::Group(_) => 1,
        Recipient::Link(_) => 3,
    }
}

fn name(to: &Recipient) -> Said<'_>
    ensures { data_of result ≡ text_or_null (name_in to.now) }
{
    match to {
        Recipient::User(name) | Recipient::Group(name) => Said::Text(text_of(name)),
        Recipient::Link(_) => Said::Null,
    }
}

fn token(to: &Recipient) -> Said<'_>
    ensures { data_of result ≡ text_or_null (token_in to.now) }
{
    match to {
        Recipient::Link(token) => Said::Text(text_of(token)),
        Recipient::User(_) | Recipient::Group(_) => Said::Null,
    }
}
