//! What is asked about shares, and which request a message is.

ghost use Rattle.std.specs.Prelude.{◌≡◌};
ghost use Rattle.nf_words.specs.History.{end_in as end_of_until};
ghost use Rattle.nf_ocs.specs.Asked.{ask_of, end_of, is_ocs_route as is_of_ocs, is_true as says_true, list_of, new_of, ocs_request_of, offered as is_offered, set_of, show_of, topic_of};
ghost use Rattle.nf_ocs.specs.Read.{Gives};
ghost use Rattle.nf_ocs.specs.Sent.{fields_of, given_in};

use crate::Unread;
use crate::bodies::{body, says_ocs};
use crate::parameters::{
    id, needed, no_password, optional, permissions, share_type, sharee, spot, spot_in, until,
};
use crate::people::{add_member, drop_member, new_group, new_user, set_user};
use crate::sent::{Given, Sent, Text};
use nf_base::{Moment, Perms};
use nf_http::Message;
use nf_routes::{Method, query};
use nf_words::{Denial, Parameter, Route, ShareAsk, Sharee, Until, Wanted};
use std::alloc::{AllocError, Global};

/// What a request is about.
#[derive(Clone, Copy)]
pub enum Topic {
    List,
    New,
    Show,
    Set,
    End,
    NewUser,
    SetUser,
    AddMember,
    DropMember,
    NewGroup,
}

/// Whether a route is of the OCS API.
pub fn is_ocs_route(route: Route) -> bool
    ensures { result ≡ is_of_ocs route }
{
    matches!(
        route,
        Route::Shares
            | Route::Share
            | Route::Users
            | Route::User
            | Route::Memberships
            | Route::Groups
    )
}

/// What a message asks on a route of the OCS API, by a method that the route has. The body is empty where it is too long to be taken, and
/// its length counts then.
#[tactic(auto, unfolding(crate::specs::Asked::ocs_request_of))]
pub fn read(
    alloc: Global,
    route: Route,
    method: Method,
    message: &Message,
    bytes: &[u8],
) -> Result<Wanted, Unread>
    ensures { Gives (ocs_request_of route method message.now bytes.now) result }
{
    if !says_ocs(message) {
        return Err(Unread::Refused(Denial::OcsHeader));
    }
    let sent = Sent {
        body: body(alloc, message, bytes)?,
        query: query(message.target()),
    };
    ask(alloc, topic_on(route, method), message.target(), &sent)
}

fn topic_on(route: Route, method: Method) -> Topic
    ensures { result ≡ topic_of route method }
{
    match (route, method) {
        (Route::Shares, Method::Get) => Topic::List,
        (Route::Shares, Method::Post) => Topic::New,
        (Route::Share, Method::Get) => Topic::Show,
        (Route::Share, Method::Put) => Topic::Set,
        (Route::Share, Method::Delete) => Topic::End,
        (Route::Users, Method::Post) => Topic::NewUser,
        (Route::User, Method::Put) => Topic::SetUser,
        (Route::Memberships, Method::Post) => Topic::AddMember,
        (Route::Memberships, Method::Delete) => Topic::DropMember,
        _ => Topic::NewGroup,
    }
}

fn ask(alloc: Global, topic: Topic, target: &[u8], sent: &Sent<'_>) -> Result<Wanted, Unread>
    ensures { Gives (ask_of topic target.now (given_in (fields_of sent.now.body) sent.now.query.now)) result }
{
    match topic {
        Topic::List => Ok(Wanted::Share(list(alloc, sent)?)),
        Topic::New => Ok(Wanted::Share(new(alloc, sent)?)),
        Topic::Show => Ok(Wanted::Share(show(alloc, target, sent)?)),
        Topic::Set => Ok(Wanted::Share(set(alloc, target, sent)?)),
        Topic::End => Ok(Wanted::Share(end(alloc, target, sent)?)),
        Topic::NewUser => Ok(Wanted::People(new_user(alloc, sent)?)),
        Topic::SetUser => Ok(Wanted::People(set_user(alloc, target, sent)?)),
        Topic::AddMember => Ok(Wanted::People(add_member(alloc, target, sent)?)),
        Topic::DropMember => Ok(Wanted::People(drop_member(alloc, target, sent)?)),
        Topic::NewGroup => Ok(Wanted::People(new_group(alloc, sent)?)),
    }
}

fn new(alloc: Global, sent: &Sent<'_>) -> Result<ShareAsk, Unread>
    ensures { Gives (new_of (given_in (fields_of sent.now.body) sent.now.query.now)) result }
{
    let path = needed(Parameter::Path, sent.given(alloc, "path")?)?;
    let kind = share_type(sent.given(alloc, "shareType")?)?;
    let to = sharee(alloc, kind, sent.given(alloc, "shareWith")?)?;
    let perms = permissions(sent.given(alloc, "permissions")?)?;
    let until = until(sent.given(alloc, "expireDate")?)?;
    no_password(sent.given(alloc, "password")?)?;
    offered(alloc, &path, to, perms, end_in(until))
}

fn end_in(until: Until) -> Option<Moment>
    ensures { result ≡ end_of_until until }
{
    match until {
        Until::At(end) => Some(end),
        Until::Keep | Until::Never => None,
    }
}

fn offered(
    alloc: Global,
    path: &Text,
    to: Sharee,
    perms: Option<Perms>,
    until: Option<Moment>,
) -> Result<ShareAsk, Unread>
    ensures { Gives (is_offered path.now to perms until) result }
{
    Ok(ShareAsk::New {
        spot: spot(alloc, path)?,
        to,
        perms,
        until,
    })
}

fn list(alloc: Global, sent: &Sent<'_>) -> Result<ShareAsk, Unread>
    ensures { Gives (list_of (given_in (fields_of sent.now.body) sent.now.query.now)) result }
{
    let path = optional(Parameter::Path, sent.given(alloc, "path")?)?;
    no_password(sent.given(alloc, "password")?)?;
    let spot = spot_in(alloc, &path)?;
    let with_me = is_true(&sent.given(alloc, "shared_with_me")?);
    Ok(ShareAsk::List { spot, with_me })
}

fn is_true(given: &Given) -> bool
    ensures { result ≡ says_true given.now }
{
    match given {
        Given::Text(text) => text.as_bytes() == b"true".as_slice(),
        Given::Absent | Given::Other => false,
    }
}

fn show(alloc: Global, target: &[u8], sent: &Sent<'_>) -> Result<ShareAsk, Unread>
    ensures { Gives (show_of target.now (given_in (fields_of sent.now.body) sent.now.query.now)) result }
{
    let id = id(alloc, target)?;
    no_password(sent.given(alloc, "password")?)?;
    Ok(ShareAsk::Show(id))
}

fn set(alloc: Global, target: &[u8], sent: &Sent<'_>) -> Result<ShareAsk, Unread>
    ensures { Gives (set_of target.now (given_in (fields_of sent.now.body) sent.now.query.now)) result }
{
    let id = id(alloc, target)?;
    let perms = permissions(sent.given(alloc, "permissions")?)?;
    let until = until(sent.given(alloc, "expireDate")?)?;
    no_password(sent.given(alloc, "password")?)?;
    Ok(ShareAsk::Set {
        share: id,
        perms,
        until,
    })
}

fn end(alloc: Global, target: &[u8], sent: &Sent<'_>) -> Result<ShareAsk, Unread>
    ensures { Gives (end_of target.now (given_in (fields_of sent.now.body) sent.now.query.now)) result }
{
    let id = id(alloc, target)?;
    no_password(sent.given(alloc, "password")?)?;
    Ok(ShareAsk::End(id))
}
