//! What is asked about users and groups.

ghost use Rattle.std.specs.Prelude.{◌≡◌};
ghost use Rattle.nf_ocs.specs.People.{add_member_of, drop_member_of, key_in as key_of_text, key_of, new_group_of, new_user_of, set_user_of, value_for};
ghost use Rattle.nf_ocs.specs.Read.{Gives};
ghost use Rattle.nf_ocs.specs.Sent.{fields_of, given_in};

use crate::Unread;
use crate::parameters::{name, needed, no_password, quota, token, unread, user};
use crate::sent::{Given, Sent};
use nf_words::{Parameter, PeopleAsk};
use std::alloc::Global;

/// What of a user is to be another.
#[derive(Clone, Copy)]
pub enum Key {
    Quota,
    Token,
}

/// A new user.
pub(crate) fn new_user(alloc: Global, sent: &Sent<'_>) -> Result<PeopleAsk, Unread>
    ensures { Gives (new_user_of (given_in (fields_of sent.now.body) sent.now.query.now)) result }
{
    no_password(sent.given(alloc, "password")?)?;
    let name = name(alloc, Parameter::UserId, sent.given(alloc, "userid")?)?;
    let token = token(Parameter::Token, sent.given(alloc, "token")?)?;
    let quota = quota(Parameter::Quota, sent.given(alloc, "quota")?)?;
    Ok(PeopleAsk::NewUser { name, token, quota })
}

/// A new group.
pub(crate) fn new_group(alloc: Global, sent: &Sent<'_>) -> Result<PeopleAsk, Unread>
    ensures { Gives (new_group_of (given_in (fields_of sent.now.body) sent.now.query.now)) result }
{
    no_password(sent.given(alloc, "password")?)?;
    let group = name(alloc, Parameter::GroupId, sent.given(alloc, "groupid")?)?;
    Ok(PeopleAsk::NewGroup(group))
}

/// That the user in the path is a member of a group.
pub(crate) fn add_member(alloc: Global, target: &[u8], sent: &Sent<'_>) -> Result<PeopleAsk, Unread>
    ensures { Gives (add_member_of target.now (given_in (fields_of sent.now.body) sent.now.query.now)) result }
{
    no_password(sent.given(alloc, "password")?)?;
    let group = name(alloc, Parameter::GroupId, sent.given(alloc, "groupid")?)?;
    let user = user(alloc, target)?;
    Ok(PeopleAsk::AddMember { user, group })
}

/// That it is none.
pub(crate) fn drop_member(
    alloc: Global,
    target: &[u8],
    sent: &Sent<'_>,
) -> Result<PeopleAsk, Unread>
    ensures { Gives (drop_member_of target.now (given_in (fields_of sent.now.body) sent.now.query.now)) result }
{
    no_password(sent.given(alloc, "password")?)?;
    let group = name(alloc, Parameter::GroupId, sent.given(alloc, "groupid")?)?;
    let user = user(alloc, target)?;
    Ok(PeopleAsk::DropMember { user, group })
}

/// Another quota of the user in the path, or a further token.
pub(crate) fn set_user(alloc: Global, target: &[u8], sent: &Sent<'_>) -> Result<PeopleAsk, Unread>
    ensures { Gives (set_user_of target.now (given_in (fields_of sent.now.body) sent.now.query.now)) result }
{
    no_password(sent.given(alloc, "password")?)?;
    let key = key_given(sent.given(alloc, "key")?)?;
    value(alloc, key, target, sent.given(alloc, "value")?)
}

fn key_given(given: Given) -> Result<Key, Unread>
    ensures { Gives (key_of given) result }
{
    let text = needed(Parameter::Key, given)?;
    key_in(text.as_bytes())
}

fn key_in(text: &[u8]) -> Result<Key, Unread>
    ensures { Gives (key_of_text text.now) result }
{
    if text == b"quota".as_slice() {
        Ok(Key::Quota)
    } else if text == b"token".as_slice() {
        Ok(Key::Token)
    } else {
        Err(unread(Parameter::Key))
    }
}

fn value(alloc: Global, key: Key, target: &[u8], given: Given) -> Result<PeopleAsk, Unread>
    ensures { Gives (value_for key target.now given) result }
{
    match key {
        Key::Quota => {
            let quota = quota(Parameter::Value, given)?;
            let user = user(alloc, target)?;
            Ok(PeopleAsk::SetQuota { user, quota })
        }
        Key::Token => {
            let token = token(Parameter::Value, given)?;
            let user = user(alloc, target)?;
            Ok(PeopleAsk::AddToken { user, token })
        }
    }
}
