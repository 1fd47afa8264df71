//! JSON objects of texts and numbers (RFC 8259).

ghost use Rattle.std.specs.Prelude.{◌≡◌, IfOk};
ghost use Rattle.serde_json.specs.View.{view};
ghost use Rattle.nf_json.specs.Objects.{data_of, object_of as the_object_of};

use nf_base::Name;
use serde_json::{Map, ToValue, Value, put};
use std::alloc::{AllocError, Global};

/// What a member of an object says.
#[derive(Clone, Copy)]
pub enum Said<'a> {
    Text(&'a str),
    Number(u64),
    /// Nothing.
    Null,
}

/// The object of members, each a name and what it says.
pub fn object_of(alloc: Global, members: &[(&str, Said<'_>)]) -> Result<Value, AllocError>
    ensures { IfOk result (λ value. view value ≡ the_object_of members.now) }
{
    let mut object = Map::new(alloc);
    for (name, said) in members {
        put(&mut object, alloc, name, value_of(alloc, said)?)?;
    }
    Ok(Value::Object(object))
}

fn value_of(alloc: Global, said: &Said<'_>) -> Result<Value, AllocError>
    ensures { IfOk result (λ value. view value ≡ data_of said.now) }
{
    match said {
        Said::Text(text) => text.to_value(alloc),
        Said::Number(number) => number.to_value(alloc),
        Said::Null => Ok(Value::Null),
    }
}

/// The text of a name, which is UTF-8.
pub fn text_of(name: &Name) -> &str
    ensures { result.now ≡ name.now }
{
    match std::str::from_utf8(name.as_bytes()) {
        Ok(text) => text,
        Err(_) => unreachable!(),
    }
}
