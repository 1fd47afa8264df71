//! What is asked about users and groups: what it names, its rules, and what it changes.

ghost use Rattle.std.specs.Prelude.{◌≡◌, ◌∷◌, [], IfOk, None, Some, filter, if◌then◌else◌, map, option_copied};
ghost use Rattle.std.specs.Option.{option_map_or};
ghost use Rattle.nf_base.specs.declared.changes.Change.TheVariants.{Put};
ghost use Rattle.nf_base.specs.declared.rows.Row.TheVariants as kinds;
ghost use Rattle.nf_defs.specs.Prelude.{user_named};
ghost use Rattle.nf_words.specs.People.{are_named, is_for_group, is_joined, is_member, is_taken, join_limit, joined_by, left_by, membership, mounts_joined, new_root, new_user, people_changed, people_limit, row_named, user_made};
ghost use Rattle.nf_words.specs.Changes.{people_done};
ghost use Rattle.nf_words.specs.Sound.{AreSound};

use crate::acting::nothing_done;
use crate::discarding::requoted;
use crate::limits::{
    are_many_groups, are_many_members, are_many_tokens, mount_limit, new_user_limit,
};
use crate::receiving::push_mounts;
use nf_base::{
    Change, Changes, Content, Digest, GroupId, GroupRow, MemberRow, Moment, MountRow, Name, NodeId,
    NodeKind, NodeRow, Place, Row, RowKey, ShareKind, ShareRow, TokenRow, UserRow,
};
use nf_view::View;
use nf_words::{Allowed, Limit, PeopleAsk, Report};
use std::alloc::{AllocError, Global};

/// The row of a user in a group, by their names.
fn membership(view: &View<'_>, user: &Name, group: &Name) -> Option<MemberRow>
    ensures { result ≡ membership view.now.tables user.now group.now }
{
    let group = view.people().group(group)?;
    let user = view.people().user(user)?;
    Some(MemberRow { group, user })
}

/// The row of the user of that name.
fn row_named<'a>(view: &'a View<'_>, name: &Name) -> Option<&'a UserRow>
    ensures { option_copied result ≡ row_named view.now.tables name.now }
{
    let user = view.people().user(name)?;
    view.people().row(user)
}

/// Whether the users and groups that are named are there.
pub fn are_named(view: &View<'_>, ask: &PeopleAsk) -> bool
    ensures { result ≡ are_named view.now.tables ask.now }
{
    match ask {
        PeopleAsk::NewUser { .. } | PeopleAsk::NewGroup(_) => true,
        PeopleAsk::AddMember { user, group } => membership(view, user, group).is_some(),
        PeopleAsk::DropMember { user, group } => membership(view, user, group).is_some(),
        PeopleAsk::SetQuota { user, .. } => view.people().user(user).is_some(),
        PeopleAsk::AddToken { user, .. } => view.people().user(user).is_some(),
    }
}

/// Whether a new name is another's already, or a new token is.
pub fn is_taken(view: &View<'_>, ask: &PeopleAsk) -> bool
    ensures { result ≡ is_taken view.now.tables ask.now }
{
    let people = view.people();
    match ask {
        PeopleAsk::NewUser { name, token, .. } => {
            people.user(name).is_some() || people.caller(token).is_some()
        }
        PeopleAsk::NewGroup(name) => people.group(name).is_some(),
        PeopleAsk::AddToken { token, .. } => people.caller(token).is_some(),
        PeopleAsk::AddMember { .. } | PeopleAsk::DropMember { .. } | PeopleAsk::SetQuota { .. } =>
            false,
    }
}

// ---- members

fn is_member(view: &View<'_>, row: &MemberRow) -> bool
    ensures { result ≡ is_member view.now.tables row.now }
{
    view.people().is_member(row.group, row.user)
}

/// Whether the share is for the group.
fn is_for_group(group: GroupId, kind: &ShareKind) -> bool
    ensures { result ≡ is_for_group group kind.now }
{
    match kind {
        ShareKind::Group(other) => *other == group,
        ShareKind::User(_) | ShareKind::Link(_) => false,
    }
}

/// Whether a share is one of the group that isn't ended, of what isn't the user's own.
fn is_joined(row: &MemberRow, share: &ShareRow) -> bool
    ensures { result ≡ is_joined row.now share.now }
{
    !share.ended && is_for_group(row.group, &share.kind) && share.owner != row.user
}

/// The nodes of these shares.
fn nodes_joined(alloc: Global, view: &View<'_>, row: &MemberRow) -> Result<Vec<NodeId>, AllocError>
    ensures { IfOk result (λ nodes. nodes.items ≡ map (λ share. share.node) (filter (is_joined row.now) view.now.tables.shares)) }
{
    view.shares()
        .rows()
        .iter()
        .filter(|share| is_joined(row, share))
        .map(|share| share.node)
        .collect(alloc)
}

/// The mounts that a new member gets.
fn mounts_joined(
    alloc: Global,
    view: &View<'_>,
    row: &MemberRow,
) -> Result<Vec<MountRow>, AllocError>
    requires { AreSound view.now.tables }
    ensures { IfOk result (λ rows. rows.items ≡ mounts_joined view.now.tables row.now) }
{
    let nodes = nodes_joined(alloc, view, row)?;
    view.mounts()
        .ensured_of(alloc, view.people(), view.tree(), row.user, &nodes)
}

// ---- limits

/// The limit that is passed by what is asked.
pub fn people_limit(
    alloc: Global,
    view: &View<'_>,
    ask: &PeopleAsk,
) -> Result<Option<Limit>, AllocError>
    requires { AreSound view.now.tables }
    ensures { IfOk result (λ limit. limit ≡ people_limit view.now.tables ask.now) }
{
    match ask {
        PeopleAsk::NewUser { .. } => Ok(new_user_limit(view)),
        PeopleAsk::NewGroup(_) => Ok(where_many(are_many_groups(view), Limit::Groups)),
        PeopleAsk::AddMember { user, group } => match membership(view, user, group) {
            Some(row) => join_limit(alloc, view, &row),
            None => Ok(None),
        },
        PeopleAsk::AddToken { .. } => Ok(where_many(are_many_tokens(view), Limit::Tokens)),
        PeopleAsk::DropMember { .. } | PeopleAsk::SetQuota { .. } => Ok(None),
    }
}

/// That limit, where there are as many as it allows.
fn where_many(are_many: bool, limit: Limit) -> Option<Limit>
    ensures { result ≡ (if are_many then Some limit else None) }
{
    if are_many { Some(limit) } else { None }
}

/// The limit that is passed by a member, who is one more where it is none yet, and by its mounts.
fn join_limit(alloc: Global, view: &View<'_>, row: &MemberRow) -> Result<Option<Limit>, AllocError>
    requires { AreSound view.now.tables }
    ensures { IfOk result (λ limit. limit ≡ join_limit view.now.tables row.now) }
{
    if is_member(view, row) {
        return Ok(None);
    }
    if are_many_members(view) {
        return Ok(Some(Limit::Members));
    }
    Ok(mount_limit(view, &mounts_joined(alloc, view, row)?))
}

// ---- what is changed

/// What is done of what is asked.
pub fn people_done(
    alloc: Global,
    view: &View<'_>,
    now: Moment,
    ask: &PeopleAsk,
) -> Result<Allowed, AllocError>
    requires { AreSound view.now.tables }
    ensures { IfOk result (λ act. act ≡ people_done view.now.tables now ask.now) }
{
    match ask {
        PeopleAsk::SetQuota { user, quota } => match row_named(view, user) {
            Some(row) => requoted(alloc, view, now, *quota, row),
            None => Ok(nothing_done(alloc)),
        },
        PeopleAsk::NewUser { .. }
        | PeopleAsk::NewGroup(_)
        | PeopleAsk::AddMember { .. }
        | PeopleAsk::DropMember { .. }
        | PeopleAsk::AddToken { .. } => Ok(Allowed::Change {
            changes: people_changed(alloc, view, now, ask)?,
            blob: None,
            report: Report::Plain,
        }),
    }
}

/// The rows that are changed by what is asked; another quota is no such row.
fn people_changed(
    alloc: Global,
    view: &View<'_>,
    now: Moment,
    ask: &PeopleAsk,
) -> Result<Changes, AllocError>
    requires { AreSound view.now.tables }
    ensures { IfOk result (λ changes. changes ≡ people_changed view.now.tables now ask.now) }
{
    match ask {
        PeopleAsk::NewUser { name, token, quota } => {
            user_made(alloc, view, now, name, *token, *quota)
        }
        PeopleAsk::NewGroup(name) => group_made(alloc, view, name),
        PeopleAsk::AddMember { user, group } => joined(alloc, view, membership(view, user, group)),
        PeopleAsk::DropMember { user, group } => left(alloc, view, membership(view, user, group)),
        PeopleAsk::SetQuota { .. } => Ok(Changes::new(alloc)),
        PeopleAsk::AddToken { user, token } => token_added(alloc, view, user, *token),
    }
}

/// One change.
fn only(alloc: Global, change: Change) -> Result<Changes, AllocError>
    ensures { IfOk result (λ changes. changes ≡ change ∷ []) }
{
    let mut changes = Changes::new(alloc);
    changes.push(change)?;
    Ok(changes)
}

/// A new user, with its root and its token.
fn user_made(
    alloc: Global,
    view: &View<'_>,
    now: Moment,
    name: &Name,
    digest: Digest,
    quota: u64,
) -> Result<Changes, AllocError>
    ensures { IfOk result (λ changes. changes ≡ user_made view.now.tables now name.now digest quota) }
{
    let user = view.meta().next_user;
    let row = new_user(view, name, quota)?;
    let root = new_root(alloc, view, now, name)?;
    let mut changes = only(alloc, Change::Put(Row::User(row)))?;
    changes.push(Change::Put(Row::Node(root)))?;
    changes.push(Change::Put(Row::Token(TokenRow { digest, user })))?;
    Ok(changes)
}

fn new_user(view: &View<'_>, name: &Name, quota: u64) -> Result<UserRow, AllocError>
    ensures { IfOk result (λ row. row ≡ new_user view.now.tables name.now quota) }
{
    Ok(UserRow {
        id: view.meta().next_user,
        name: name.copy()?,
        quota,
        root: view.meta().next_node,
    })
}

/// The root of a new user: an empty folder of its name.
fn new_root(alloc: Global, view: &View<'_>, now: Moment, name: &Name) -> Result<NodeRow, AllocError>
    ensures { IfOk result (λ row. row ≡ new_root view.now.tables now name.now) }
{
    Ok(NodeRow {
        id: view.meta().next_node,
        owner: view.meta().next_user,
        place: Place::Root,
        name: name.copy()?,
        kind: NodeKind::Folder,
        content: Content::empty(alloc),
        changed: now,
    })
}

/// A new group.
fn group_made(alloc: Global, view: &View<'_>, name: &Name) -> Result<Changes, AllocError>
    ensures { IfOk result (λ changes. changes ≡ Put (kinds.Group (record { id = view.now.tables.meta.next_group; name = name.now })) ∷ []) }
{
    let row = GroupRow {
        id: view.meta().next_group,
        name: name.copy()?,
    };
    only(alloc, Change::Put(Row::Group(row)))
}

/// A member, if there is one, is put with its mounts, unless it is one already.
fn joined(alloc: Global, view: &View<'_>, row: Option<MemberRow>) -> Result<Changes, AllocError>
    requires { AreSound view.now.tables }
    ensures { IfOk result (λ changes. changes ≡ option_map_or (joined_by view.now.tables) row []) }
{
    match row {
        Some(row) => joined_by(alloc, view, row),
        None => Ok(Changes::new(alloc)),
    }
}

fn joined_by(alloc: Global, view: &View<'_>, row: MemberRow) -> Result<Changes, AllocError>
    requires { AreSound view.now.tables }
    ensures { IfOk result (λ changes. changes ≡ joined_by view.now.tables row) }
{
    if is_member(view, &row) {
        return Ok(Changes::new(alloc));
    }
    let mounts = mounts_joined(alloc, view, &row)?;
    let mut changes = only(alloc, Change::Put(Row::Member(row)))?;
    push_mounts(&mut changes, mounts)?;
    Ok(changes)
}

/// A member, if there is one, is dropped where it is one.
fn left(alloc: Global, view: &View<'_>, row: Option<MemberRow>) -> Result<Changes, AllocError>
    ensures { IfOk result (λ changes. changes ≡ option_map_or (left_by view.now.tables) row []) }
{
    match row {
        Some(row) => left_by(alloc, view, row),
        None => Ok(Changes::new(alloc)),
    }
}

fn left_by(alloc: Global, view: &View<'_>, row: MemberRow) -> Result<Changes, AllocError>
    ensures { IfOk result (λ changes. changes ≡ left_by view.now.tables row) }
{
    if !is_member(view, &row) {
        return Ok(Changes::new(alloc));
    }
    let key = RowKey::Member {
        group: row.group,
        user: row.user,
    };
    only(alloc, Change::Drop(key))
}

/// A token more of the user of that name.
fn token_added(
    alloc: Global,
    view: &View<'_>,
    user: &Name,
    digest: Digest,
) -> Result<Changes, AllocError>
    ensures { IfOk result (λ changes. changes ≡ option_map_or (λ user. Put (kinds.Token (record { digest = digest; user = user })) ∷ []) (user_named view.now.tables.users user.now) []) }
{
    match view.people().user(user) {
        Some(user) => only(alloc, Change::Put(Row::Token(TokenRow { digest, user }))),
        None => Ok(Changes::new(alloc)),
    }
}
