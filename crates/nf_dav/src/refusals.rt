//! The JSON of refusals (RFC 8259).

ghost use Rattle.std.specs.Prelude.{◌≡◌, IfOk};
ghost use Rattle.std.specs.String.{string_bytes};
ghost use Rattle.serde_json.specs.View.{view};
ghost use Rattle.nf_dav.specs.Reply.{envelope as envelope_of, locked_object, meta_object, misfit_object, quota_object, refusal_body, refusal_object, upload_object};

use crate::words::{
    cause_word, code, fault_word, field_word, limit_word, link_word, reason, rule_word,
};
use nf_json::{Said, object_of, text_of};
use nf_words::{Denial, Excess, LockKey, UploadFault};
use serde_json::{Map, Value, put};
use std::alloc::{AllocError, Global};

/// The body of a refusal, in an envelope where it answers an OCS request.
pub fn refusal_text(alloc: Global, denial: &Denial, ocs: bool) -> Result<String, AllocError>
    ensures { IfOk result (λ text. string_bytes text ≡ refusal_body ocs denial.now) }
{
    let value = refusal_value(alloc, denial)?;
    if ocs {
        envelope(alloc, denial, value)?.to_string(alloc)
    } else {
        value.to_string(alloc)
    }
}

fn envelope(alloc: Global, denial: &Denial, inner: Value) -> Result<Value, AllocError>
    requires { view inner ≡ refusal_object denial.now }
    ensures { IfOk result (λ value. view value ≡ envelope_of denial.now) }
{
    let mut told = Map::new(alloc);
    put(&mut told, alloc, "data", inner)?;
    put(
        &mut told,
        alloc,
        "meta",
        meta(alloc, reason(denial), code(denial))?,
    )?;
    let mut ocs = Map::new(alloc);
    put(&mut ocs, alloc, "ocs", Value::Object(told))?;
    Ok(Value::Object(ocs))
}

fn meta(alloc: Global, message: &str, statuscode: u16) -> Result<Value, AllocError>
    ensures { IfOk result (λ value. view value ≡ meta_object message.now statuscode) }
{
    object_of(
        alloc,
        &[
            ("message", Said::Text(message)),
            ("status", Said::Text("failure")),
            ("statuscode", Said::Number(u64::from(statuscode))),
        ],
    )
}

fn refusal_value(alloc: Global, denial: &Denial) -> Result<Value, AllocError>
    ensures { IfOk result (λ value. view value ≡ refusal_object denial.now) }
{
    let reason = ("reason", Said::Text(reason(denial)));
    match denial {
        Denial::BadName(fault) => {
            let fault = Said::Text(fault_word(*fault));
            object_of(alloc, &[("fault", fault), reason])
        }
        Denial::BadParameter(field) => {
            let field = Said::Text(field_word(*field));
            object_of(alloc, &[("field", field), reason])
        }
        Denial::Upload(fault) => upload_value(alloc, *fault),
        Denial::BadTarget(cause) => {
            let cause = Said::Text(cause_word(*cause));
            object_of(alloc, &[("cause", cause), reason])
        }
        Denial::BrokenLink { share, cause } => {
            let share = Said::Number(u64::from(share.number()));
            let cause = Said::Text(link_word(*cause));
            object_of(alloc, &[("cause", cause), reason, ("share", share)])
        }
        Denial::Rule(rule) => {
            let rule = Said::Text(rule_word(*rule));
            object_of(alloc, &[reason, ("rule", rule)])
        }
        Denial::Damaged(damage) => {
            let blob = Said::Number(damage.blob.number());
            object_of(alloc, &[("blob", blob), reason])
        }
        Denial::Locked(key) => locked_value(alloc, key),
        Denial::Limit(limit) => {
            let count = Said::Number(u64::from(limit.count()));
            let which = Said::Text(limit_word(*limit));
            object_of(alloc, &[("count", count), reason, ("which", which)])
        }
        Denial::Quota(excess) => quota_value(alloc, excess),
        _ => object_of(alloc, &[reason]),
    }
}

/// What doesn't fit an upload.
fn upload_value(alloc: Global, fault: UploadFault) -> Result<Value, AllocError>
    ensures { IfOk result (λ value. view value ≡ upload_object fault) }
{
    match fault {
        UploadFault::Number => misfit_value(alloc, "number"),
        UploadFault::Destination => misfit_value(alloc, "destination"),
        UploadFault::Total { declared, sum } => object_of(
            alloc,
            &[
                ("declared", Said::Number(declared)),
                ("fault", Said::Text("total")),
                ("reason", Said::Text("upload")),
                ("sum", Said::Number(sum)),
            ],
        ),
    }
}

fn misfit_value(alloc: Global, fault: &str) -> Result<Value, AllocError>
    ensures { IfOk result (λ value. view value ≡ misfit_object fault.now) }
{
    object_of(
        alloc,
        &[
            ("fault", Said::Text(fault)),
            ("reason", Said::Text("upload")),
        ],
    )
}

/// What would pass a quota.
fn quota_value(alloc: Global, excess: &Excess) -> Result<Value, AllocError>
    ensures { IfOk result (λ value. view value ≡ quota_object excess.now) }
{
    object_of(
        alloc,
        &[
            ("charge", Said::Number(excess.charge)),
            ("quota", Said::Number(excess.quota)),
            ("reason", Said::Text("quota")),
            ("size", Said::Number(excess.size)),
        ],
    )
}

/// What is held: a node, or a name in a folder.
fn locked_value(alloc: Global, key: &LockKey) -> Result<Value, AllocError>
    ensures { IfOk result (λ value. view value ≡ locked_object key.now) }
{
    let reason = ("reason", Said::Text("locked"));
    match key {
        LockKey::Node(node) => {
            let node = Said::Number(node.number());
            object_of(alloc, &[("node", node), reason])
        }
        LockKey::Slot { folder, name } => {
            let folder = Said::Number(folder.number());
            let name = Said::Text(text_of(name));
            object_of(alloc, &[("folder", folder), ("name", name), reason])
        }
    }
}
