//! The words of denials, and the numbers of their status.

ghost use Rattle.std.specs.Prelude.{◌≡◌};
ghost use Rattle.nf_dav.specs.Reply.{status_of, code_of, reason_of, fault_word, cause_word, link_word, limit_word, field_word, rule_word};

use nf_access::Cause;
use nf_base::NameFault;
use nf_words::{Breach, Denial, Limit, Parameter, TargetFault};

/// The status of a denial and its phrase.
pub fn status(denial: &Denial) -> &'static str
    ensures { result.now ≡ status_of denial.now }
{
    match denial {
        Denial::BadMessage | Denial::BadName(_) | Denial::BadParameter(_) | Denial::Upload(_) =>
            "400 Bad Request",
        Denial::Token => "401 Unauthorized",
        Denial::NotYou
        | Denial::ForbiddenName
        | Denial::BrokenLink { .. }
        | Denial::NoShare
        | Denial::BadTarget(_)
        | Denial::Rule(_) => "403 Forbidden",
        Denial::NotFound => "404 Not Found",
        Denial::Method(_) | Denial::Exists(_) => "405 Method Not Allowed",
        Denial::Kind | Denial::NoParent => "409 Conflict",
        Denial::Overwrite | Denial::OcsHeader => "412 Precondition Failed",
        Denial::TooLarge => "413 Payload Too Large",
        Denial::Body => "415 Unsupported Media Type",
        Denial::Locked(_) => "423 Locked",
        Denial::Head => "431 Request Header Fields Too Large",
        Denial::Store | Denial::Damaged(_) | Denial::RunFull => "500 Internal Server Error",
        Denial::Coding => "501 Not Implemented",
        Denial::Memory => "503 Service Unavailable",
        Denial::Limit(_) | Denial::Quota(_) => "507 Insufficient Storage",
    }
}

/// The number of its status.
pub fn code(denial: &Denial) -> u16
    ensures { result ≡ code_of denial.now }
{
    match denial {
        Denial::BadMessage | Denial::BadName(_) | Denial::BadParameter(_) | Denial::Upload(_) =>
            400,
        Denial::Token => 401,
        Denial::NotYou
        | Denial::ForbiddenName
        | Denial::BrokenLink { .. }
        | Denial::NoShare
        | Denial::BadTarget(_)
        | Denial::Rule(_) => 403,
        Denial::NotFound => 404,
        Denial::Method(_) | Denial::Exists(_) => 405,
        Denial::Kind | Denial::NoParent => 409,
        Denial::Overwrite | Denial::OcsHeader => 412,
        Denial::TooLarge => 413,
        Denial::Body => 415,
        Denial::Locked(_) => 423,
        Denial::Head => 431,
        Denial::Store | Denial::Damaged(_) | Denial::RunFull => 500,
        Denial::Coding => 501,
        Denial::Memory => 503,
        Denial::Limit(_) | Denial::Quota(_) => 507,
    }
}

/// Its reason.
pub fn reason(denial: &Denial) -> &'static str
    ensures { result.now ≡ reason_of denial.now }
{
    match denial {
        Denial::BadMessage => "bad-message",
        Denial::BadName(_) => "bad-name",
        Denial::BadParameter(_) => "bad-parameter",
        Denial::Upload(_) => "upload",
        Denial::Token => "token",
        Denial::NotYou => "not-you",
        Denial::ForbiddenName => "forbidden-name",
        Denial::BrokenLink { .. } => "broken-link",
        Denial::NoShare => "no-share",
        Denial::BadTarget(_) => "bad-target",
        Denial::Rule(_) => "rule",
        Denial::NotFound => "not-found",
        Denial::Method(_) => "method",
        Denial::Exists(_) => "exists",
        Denial::Kind => "kind",
        Denial::NoParent => "no-parent",
        Denial::Overwrite => "overwrite",
        Denial::OcsHeader => "ocs-header",
        Denial::TooLarge => "too-large",
        Denial::Body => "body",
        Denial::Locked(_) => "locked",
        Denial::Head => "head",
        Denial::Store => "store",
        Denial::Damaged(_) => "damaged",
        Denial::RunFull => "run-full",
        Denial::Coding => "coding",
        Denial::Memory => "memory",
        Denial::Limit(_) => "limit",
        Denial::Quota(_) => "quota",
    }
}

/// The word of why a share is broken.
pub fn link_word(cause: Cause) -> &'static str
    ensures { result.now ≡ link_word cause }
{
    match cause {
        Cause::Ended => "ended",
        Cause::Expired => "expired",
        Cause::NoReshare => "no-reshare",
        Cause::NotMember => "not-member",
        Cause::MovedOut => "moved-out",
        Cause::Narrowed => "narrowed",
    }
}

/// The word of a bad name's fault.
pub fn fault_word(fault: NameFault) -> &'static str
    ensures { result.now ≡ fault_word fault }
{
    match fault {
        NameFault::Empty => "empty",
        NameFault::Long => "long",
        NameFault::NotUtf8 => "not-utf8",
        NameFault::Slash => "slash",
        NameFault::Zero => "zero",
        NameFault::Dots => "dots",
        NameFault::Deep => "deep",
        NameFault::Memory => "memory",
    }
}

/// The word of a field that can't be read.
pub fn field_word(field: Parameter) -> &'static str
    ensures { result.now ≡ field_word field }
{
    match field {
        Parameter::Destination => "destination",
        Parameter::Overwrite => "overwrite",
        Parameter::Depth => "depth",
        Parameter::Total => "total",
        Parameter::Id => "id",
        Parameter::At => "at",
        Parameter::Path => "path",
        Parameter::ShareType => "shareType",
        Parameter::ShareWith => "shareWith",
        Parameter::Permissions => "permissions",
        Parameter::ExpireDate => "expireDate",
        Parameter::Password => "password",
        Parameter::UserId => "userid",
        Parameter::Token => "token",
        Parameter::Quota => "quota",
        Parameter::GroupId => "groupid",
        Parameter::Key => "key",
        Parameter::Value => "value",
    }
}

/// The word of what makes a target unfit.
pub fn cause_word(cause: TargetFault) -> &'static str
    ensures { result.now ≡ cause_word cause }
{
    match cause {
        TargetFault::Root => "root",
        TargetFault::Same => "same",
        TargetFault::Inside => "inside",
        TargetFault::Mount => "mount",
    }
}

/// The word of a rule of sharing, or of new names and tokens.
pub fn rule_word(rule: Breach) -> &'static str
    ensures { result.now ≡ rule_word rule }
{
    match rule {
        Breach::Root => "root",
        Breach::SelfShare => "self",
        Breach::Past => "past",
        Breach::Already => "already",
        Breach::Widened => "widened",
        Breach::Chain => "chain",
        Breach::TokenTaken => "token-taken",
        Breach::Taken => "taken",
    }
}

/// The word of a limit.
pub fn limit_word(limit: Limit) -> &'static str
    ensures { result.now ≡ limit_word limit }
{
    match limit {
        Limit::Users => "users",
        Limit::Groups => "groups",
        Limit::Tokens => "tokens",
        Limit::Members => "members",
        Limit::Nodes => "nodes",
        Limit::Depth => "depth",
        Limit::Shares => "shares",
        Limit::Mounts => "mounts",
        Limit::Versions => "versions",
        Limit::Pieces => "pieces",
        Limit::Uploads => "uploads",
        Limit::Pending => "pending",
    }
}
