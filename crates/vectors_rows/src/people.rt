//! People: users, groups, tokens and members, each call once.

use nf_base::{Digest, GroupId, GroupRow, MemberRow, Name, NodeId, TokenRow, UserId, UserRow};
use nf_people::{People, PeopleCounts, PeopleFault, PeopleRows};
use std::alloc::{AllocError, Global};

/// Users 1 and 2, and group 1, of administrators.
fn bob_and_ann(alloc: Global) -> Option<People> {
    let bob = Name::read(alloc, b"bob").ok()?;
    let ann = Name::read(alloc, b"ann").ok()?;
    let admin = Name::read(alloc, b"admin").ok()?;
    let mut people = People::new(alloc);
    let one_more = PeopleCounts {
        users: 1,
        tokens: 1,
        groups: 1,
        members: 1,
    };
    people.reserve(one_more).ok()?;
    people
        .add_user(UserRow {
            id: UserId::new(1),
            name: bob,
            quota: 5,
            root: NodeId::new(1),
        })
        .ok()?;
    people
        .add_user(UserRow {
            id: UserId::new(2),
            name: ann,
            quota: 6,
            root: NodeId::new(2),
        })
        .ok()?;
    people
        .add_group(GroupRow {
            id: GroupId::new(1),
            name: admin,
        })
        .ok()?;
    Some(people)
}

/// A token and another quota for a user, who becomes a member.
fn change(
    people: &mut People,
    user: UserId,
    digest: Digest,
    group: GroupId,
) -> Result<(), PeopleFault> {
    people.add_token(TokenRow { digest, user })?;
    people.add_member(MemberRow { group, user })?;
    people.set_quota(user, 7)
}

fn are_named(alloc: Global, people: &People, ann: UserId, admin: GroupId) -> Option<bool> {
    let user = Name::read(alloc, b"ann").ok()?;
    let group = Name::read(alloc, b"admin").ok()?;
    Some(people.user(&user) == Some(ann) && people.group(&group) == Some(admin))
}

fn has_quota(people: &People, user: UserId, quota: u64) -> bool {
    matches!(people.row(user), Some(row) if row.quota == quota)
}

/// Whether the group is there, and the user is its member and an administrator.
fn is_member(people: &People, group: GroupId, user: UserId) -> bool {
    people.group_row(group).is_some() && people.is_member(group, user) && people.is_admin(user)
}

/// Whether the user is the group's only member.
fn is_alone(
    alloc: Global,
    people: &People,
    group: GroupId,
    user: UserId,
) -> Result<bool, AllocError> {
    Ok(people.members(alloc, group)?.as_slice() == [user].as_slice())
}

fn count_rows(alloc: Global, people: &People) -> Result<usize, AllocError> {
    Ok(people.rows(alloc)?.rows().len())
}

fn counts_no_member(people: &People) -> bool {
    people.counts()
        == PeopleCounts {
            users: 2,
            tokens: 1,
            groups: 1,
            members: 0,
        }
}

/// Whether ann is found by her name, with her quota and her group.
fn finds_ann(alloc: Global, people: &People, ann: UserId, admin: GroupId) -> bool {
    are_named(alloc, people, ann, admin) == Some(true)
        && has_quota(people, ann, 7)
        && is_member(people, admin, ann)
        && matches!(is_alone(alloc, people, admin, ann), Ok(true))
}

#[test]
fn finds_people(rt: HostRuntime) {
    let (ann, admin) = (UserId::new(2), GroupId::new(1));
    let digest = Digest::of(b"secret");
    let mut people = bob_and_ann(rt.alloc()).expect(&rt, "no memory");
    assert!(rt; change(&mut people, ann, digest, admin).is_ok());
    assert!(rt; finds_ann(rt.alloc(), &people, ann, admin));
    assert!(rt; people.caller(&digest) == Some(ann));
    assert!(rt; matches!(count_rows(rt.alloc(), &people), Ok(5)));
    assert!(rt; people.drop_member(admin, ann));
    assert!(rt; counts_no_member(&people));
}

/// People of one token and nothing else.
fn holder_of(alloc: Global, token: TokenRow) -> Result<People, AllocError> {
    let rows = PeopleRows {
        users: Vec::new(alloc),
        tokens: vec![in alloc; token]?,
        groups: Vec::new(alloc),
        members: Vec::new(alloc),
    };
    let people = People::load(alloc, rows)?;
    people.keeps();
    Ok(people)
}

#[test]
fn loads_people(rt: HostRuntime) {
    let (digest, user) = (Digest::of(b"secret"), UserId::new(1));
    let people = holder_of(rt.alloc(), TokenRow { digest, user }).expect(&rt, "no memory");
    assert!(rt; people.caller(&digest) == Some(user));
}
