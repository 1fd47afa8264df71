//! Users, groups, tokens and members at their limits and one past each, over rows that loops make.

ghost use Rattle.std.specs.Prelude.{IfSome};
ghost use Rattle.nf_hub.specs.Seats.{IsIdleSeat};
ghost use Rattle.nf_words.specs.History.{IsModest};

use crate::seats::{Shared, answered, start};
use nf_base::{
    BlobId, Content, Digest, GroupId, GroupRow, MemberRow, MetaRow, Moment, Name, NodeId, NodeKind,
    NodeRow, Place, Row, ShareId, TokenRow, UserId, UserRow,
};
use nf_desk::Opening;
use nf_hub::Seat;
use nf_keeper::{BlobList, Keeper, MemKeeper, RawRows};
use nf_rows::{RawRow, write};
use nf_words::{Answer, Caller, Denial, Limit, PeopleAsk, Reply, Request, Wanted};
use std::alloc::{AllocError, Global};
use std::sync::Wait;
use std::test::Fail;

// One less than there may be of each kind; of tokens two less, since a new user has one.
const USERS: u32 = 4_095;

const GROUPS: u32 = 4_095;

const TOKENS: u32 = 16_382;

const MEMBERS: u32 = 65_535;

pub(crate) fn push(alloc: Global, raws: &mut RawRows, row: &Row) -> Result<(), AllocError> {
    let mut raw = RawRow::new(alloc);
    write(row, &mut raw)?;
    raws.push(raw)
}

/// A letter and a number as a name.
fn named(alloc: Global, letter: char, number: u32) -> Result<Name, AllocError> {
    let text = format!(in alloc; "{letter}{number}")?;
    Name::read(alloc, text.as_bytes()).map_err(|_| AllocError)
}

fn push_user(alloc: Global, raws: &mut RawRows, id: u32) -> Result<(), AllocError> {
    let user = UserId::new(id);
    let root = NodeId::new(u64::from(id));
    push(
        alloc,
        raws,
        &Row::User(UserRow {
            id: user,
            name: named(alloc, 'u', id)?,
            quota: 0,
            root,
        }),
    )?;
    push(
        alloc,
        raws,
        &Row::Node(NodeRow {
            id: root,
            owner: user,
            place: Place::Root,
            name: named(alloc, 'u', id)?,
            kind: NodeKind::Folder,
            content: Content::empty(alloc),
            changed: Moment::new(0),
        }),
    )
}

/// Users with their roots, tokens of the first, groups of which the first is `admin`, and members, group by group.
fn push_all(alloc: Global, raws: &mut RawRows) -> Result<(), AllocError> {
    push(
        alloc,
        raws,
        &Row::Meta(MetaRow {
            next_user: UserId::new(USERS + 1),
            next_group: GroupId::new(GROUPS + 1),
            next_node: NodeId::new(u64::from(USERS) + 1),
            next_share: ShareId::new(1),
            next_blob: BlobId::new(1),
            last: Moment::new(0),
        }),
    )?;
    for id in 1..=USERS {
        push_user(alloc, raws, id)?;
    }
    for id in 1..=TOKENS {
        let digest = Digest::of(format!(in alloc; "{id}")?.as_bytes());
        let user = UserId::new(1);
        push(alloc, raws, &Row::Token(TokenRow { digest, user }))?;
    }
    push_groups(alloc, raws)
}

fn push_groups(alloc: Global, raws: &mut RawRows) -> Result<(), AllocError> {
    for id in 1..=GROUPS {
        let name = if id == 1 {
            Name::read(alloc, b"admin").map_err(|_| AllocError)?
        } else {
            named(alloc, 'g', id)?
        };
        let id = GroupId::new(id);
        push(alloc, raws, &Row::Group(GroupRow { id, name }))?;
    }
    for at in 0..MEMBERS {
        let group = GroupId::new(at / USERS + 1);
        let user = UserId::new(at % USERS + 1);
        push(alloc, raws, &Row::Member(MemberRow { group, user }))?;
    }
    Ok(())
}

/// What the first user, who is an administrator, asks is answered `plain`, or refused by that limit.
fn is_answered<K: Keeper + Drop, R: Wait>(
    rt: &R,
    shared: &Shared<K>,
    seat: &mut Seat<K>,
    ask: PeopleAsk,
    limit: Option<Limit>,
) -> bool
    requires seat { IsIdleSeat K.Keeper shared.now.hub seat.old }
    requires modest { IsModest ask }
    ensures { IsIdleSeat K.Keeper shared.now.hub seat.new }
{
    let caller = Caller::Token(Digest::of(b"1"));
    let wanted = Wanted::People(ask);
    let answer = answered(rt, shared, (0, 0), Request { caller, wanted }, seat);
    is_limited(&answer, limit)
}

fn is_limited(answer: &Answer, limit: Option<Limit>) -> bool {
    match answer {
        Ok(Reply::Plain) => limit.is_none(),
        Err(Denial::Limit(passed)) => limit.as_ref() == Some(passed),
        _ => false,
    }
}

fn new_user(alloc: Global, text: &str) -> Option<PeopleAsk>
    ensures { IfSome result IsModest }
{
    let name = Name::read(alloc, text.as_bytes()).ok()?;
    let token = Digest::of(text.as_bytes());
    Some(PeopleAsk::NewUser {
        name,
        token,
        quota: 0,
    })
}

fn new_group(alloc: Global, text: &str) -> Option<PeopleAsk>
    ensures { IfSome result IsModest }
{
    Some(PeopleAsk::NewGroup(Name::read(alloc, text.as_bytes()).ok()?))
}

fn add_token(alloc: Global, text: &str) -> Option<PeopleAsk>
    ensures { IfSome result IsModest }
{
    let user = named(alloc, 'u', 1).ok()?;
    let token = Digest::of(text.as_bytes());
    Some(PeopleAsk::AddToken { user, token })
}

fn add_member(alloc: Global, user: u32, group: u32) -> Option<PeopleAsk>
    ensures { IfSome result IsModest }
{
    let user = named(alloc, 'u', user).ok()?;
    let group = named(alloc, 'g', group).ok()?;
    Some(PeopleAsk::AddMember { user, group })
}

/// Each of what is asked is answered so, one after the other.
fn meets<K: Keeper + Drop, R: Wait>(
    rt: &R,
    shared: &Shared<K>,
    seat: &mut Seat<K>,
    ask: Option<PeopleAsk>,
    limit: Option<Limit>,
) -> bool
    requires seat { IsIdleSeat K.Keeper shared.now.hub seat.old }
    requires modest { IfSome ask IsModest }
    ensures { IsIdleSeat K.Keeper shared.now.hub seat.new }
{
    match ask {
        Some(ask) => is_answered(rt, shared, seat, ask, limit),
        None => false,
    }
}

#[test]
fn people_are_as_many_as_may_be(rt: HostRuntime) -> Result<(), Fail> {
    let alloc = rt.alloc();
    let mut raws = RawRows::new(alloc);
    push_all(alloc, &mut raws)?;
    let keeper = MemKeeper::holding(alloc, raws, BlobList::new(alloc), &[])?;
    let started = start(alloc, keeper, Opening::Kept);
    let (shared, mut seat) = started.ok().ok_or("no hub")?;
    let seat = &mut seat;
    let (users, groups) = (Some(Limit::Users), Some(Limit::Groups));
    assert!(rt; meets(&rt, &shared, seat, new_user(alloc, "dora"), None));
    assert!(rt; meets(&rt, &shared, seat, new_user(alloc, "emil"), users));
    assert!(rt; meets(&rt, &shared, seat, new_group(alloc, "crew"), None));
    assert!(rt; meets(&rt, &shared, seat, new_group(alloc, "club"), groups));
    let (tokens, members) = (Some(Limit::Tokens), Some(Limit::Members));
    assert!(rt; meets(&rt, &shared, seat, add_token(alloc, "one"), None));
    assert!(rt; meets(&rt, &shared, seat, add_token(alloc, "two"), tokens));
    assert!(rt; meets(&rt, &shared, seat, add_member(alloc, 1, 100), None));
    assert!(rt; meets(&rt, &shared, seat, add_member(alloc, 2, 100), members));
    // Who is a member already is no further one.
    assert!(rt; meets(&rt, &shared, seat, add_member(alloc, 1, 100), None));
    Ok(())
}
