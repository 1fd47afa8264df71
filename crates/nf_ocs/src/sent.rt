//! The parameters that are sent, in the body of a message and in its query.

ghost use Rattle.std.specs.Prelude.{◌≡◌, IfOk, option_and_then, option_map};
ghost use Rattle.serde_json.specs.Read.{read};
ghost use Rattle.serde_json.specs.View.{view};
ghost use Rattle.nf_ocs.specs.Sent.{fields_of, given_by as what_is_given, given_in, in_fields, in_form as given_in_form, in_object as given_in_object, object_in as object_of_bytes, only_object};

use serde_json::Value;
use std::alloc::{AllocError, Global};
use std::marker::Model;

/// A text that was sent.
#[derive(Drop)]
pub struct Text {
    bytes: Vec<u8>,
}

impl Model for Text {
    ghost use Rattle.std.specs.Prelude.{List, ℕ};

    ghost Value = { List ℕ };

    ghost view = { λ text. text.bytes.items };
}

impl Text {
    fn new(bytes: Vec<u8>) -> Self
        ensures { result ≡ bytes.items }
    {
        Text { bytes }
    }

    pub(crate) fn as_bytes(&self) -> &[u8]
        ensures { result.now ≡ self.now }
    {
        &self.bytes
    }
}

/// What is given for a parameter.
#[derive(Drop)]
pub enum Given {
    Absent,
    Text(Text),
    /// What is neither a text nor a whole number.
    Other,
}

/// A body, where parameters stand.
#[derive(Drop)]
pub enum Body<'a> {
    Form(&'a [u8]),
    Json(Value),
}

/// The parameters of a message.
#[derive(Drop)]
pub struct Sent<'a> {
    pub body: Body<'a>,
    pub query: &'a [u8],
}

impl<'a> Sent<'a> {
    /// What is given for a name.
    pub(crate) fn given(&self, alloc: Global, name: &str) -> Result<Given, AllocError>
        ensures { IfOk result (λ given. given ≡ given_in (fields_of self.now.body) self.now.query.now name.now) }
    {
        match in_body(alloc, &self.body, name)? {
            Given::Absent => in_form(alloc, self.query, name),
            given => Ok(given),
        }
    }
}

fn in_body(alloc: Global, body: &Body<'_>, name: &str) -> Result<Given, AllocError>
    ensures { IfOk result (λ given. given ≡ in_fields name.now (fields_of body.now)) }
{
    match body {
        Body::Form(bytes) => in_form(alloc, bytes, name),
        Body::Json(value) => in_object(alloc, value, name),
    }
}

// The value of the first pair of a name.
fn in_form(alloc: Global, form: &[u8], name: &str) -> Result<Given, AllocError>
    ensures { IfOk result (λ given. given ≡ given_in_form name.now form.now) }
{
    for pair in form_urlencoded::parse(alloc, form) {
        let (found, value) = pair?;
        if found.as_str() == name {
            return Ok(Given::Text(Text::new(value.as_bytes().to_vec(alloc)?)));
        }
    }
    Ok(Given::Absent)
}

fn in_object(alloc: Global, object: &Value, name: &str) -> Result<Given, AllocError>
    ensures { IfOk result (λ given. given ≡ given_in_object name.now (view object.now)) }
{
    match object.get(name) {
        Some(value) => given_by(alloc, value),
        None => Ok(Given::Absent),
    }
}

fn given_by(alloc: Global, value: &Value) -> Result<Given, AllocError>
    ensures { IfOk result (λ given. given ≡ what_is_given (view value.now)) }
{
    match value {
        Value::String(text) => Ok(Given::Text(Text::new(text.as_bytes().to_vec(alloc)?))),
        Value::Number(number) if !number.is_f64() => {
            Ok(Given::Text(Text::new(value.to_string(alloc)?.into_bytes())))
        }
        _ => Ok(Given::Other),
    }
}

/// The object that bytes are the text of.
pub(crate) fn object_in(alloc: Global, bytes: &[u8]) -> Result<Option<Value>, AllocError>
    ensures { IfOk result (λ object. option_map view object ≡ object_of_bytes bytes.now) }
{
    match std::str::from_utf8(bytes) {
        Ok(text) => object_of(alloc, text),
        Err(_) => Ok(None),
    }
}

fn object_of(alloc: Global, text: &str) -> Result<Option<Value>, AllocError>
    ensures { IfOk result (λ object. option_map view object ≡ option_and_then only_object (read text.now)) }
{
    match Value::from_str(alloc, text) {
        Ok(value) if value.is_object() => Ok(Some(value)),
        Err(error) if error.is_memory() => Err(AllocError),
        _ => Ok(None),
    }
}
