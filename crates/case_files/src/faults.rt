//! Reads why a keeper's rows are refused.

use crate::case::{Fault, RowFault, Unread};
use crate::reading::{has_only, member, number};
use serde_json::Value;

/// The fault of a run, where one is said.
pub(crate) fn fault_in(run: &Value) -> Result<Option<Fault>, Unread> {
    match run.get("fault") {
        Some(said) => Ok(Some(fault_of(said)?)),
        None => Ok(None),
    }
}

fn fault_of(said: &Value) -> Result<Fault, Unread> {
    match said.as_str() {
        Some("found") => Ok(Fault::Found),
        Some("missing") => Ok(Fault::Missing),
        Some(_) => Err(Unread::Malformed),
        None => fault_at(said),
    }
}

// A fault of one row.
fn fault_at(said: &Value) -> Result<Fault, Unread> {
    has_only(said, &["index", "rule", "row", "at"])?;
    let index = number(member(said, "index")?)?;
    match (said.get("rule"), said.get("row"), said.get("at")) {
        (Some(rule), None, None) => Ok(Fault::Rule {
            index,
            rule: number(rule)?,
        }),
        (None, Some(row), at) => Ok(Fault::Row {
            index,
            why: row_fault(row, at)?,
        }),
        _ => Err(Unread::Malformed),
    }
}

fn row_fault(row: &Value, at: Option<&Value>) -> Result<RowFault, Unread> {
    match (row.as_str(), at) {
        (Some("kind"), None) => Ok(RowFault::Kind),
        (Some("short"), Some(at)) => Ok(RowFault::Short { at: number(at)? }),
        (Some("long"), Some(at)) => Ok(RowFault::Long { at: number(at)? }),
        (Some("value"), Some(at)) => Ok(RowFault::Value { at: number(at)? }),
        _ => Err(Unread::Malformed),
    }
}
