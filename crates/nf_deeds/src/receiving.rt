//! Who receives what is shared, and the mounts that they get by it.

ghost use Rattle.std.specs.Prelude.{◌≡◌, ◌==◌, not, ◌++◌, ◌∷◌, [], IfOk, IsSome, OnOk, filter};
ghost use Rattle.std.specs.List.Sorted.{IsStrictlyIncreasing};
ghost use Rattle.nf_base.specs.declared.changes.Change.TheVariants.{Put};
ghost use Rattle.nf_defs.specs.Prelude.{members_of, node_row};
ghost use Rattle.nf_words.specs.Sharing.{mounts_for, users_for};
ghost use Rattle.nf_words.specs.People.{put_mounts};
ghost use Rattle.nf_words.specs.Sound.{AreSound};

use nf_base::{Change, Changes, GroupId, MountRow, Row, UserId};
use nf_people::People;
use nf_view::{View, owner_of};
use nf_words::{Offer, Receiver};
use std::alloc::{AllocError, Global};

/// The rows of the mounts of what is shared, where those whom it is for have none yet.
pub fn mounts_for(
    alloc: Global,
    view: &View<'_>,
    offer: &Offer,
) -> Result<Vec<MountRow>, AllocError>
    requires sound { AreSound view.now.tables }
    requires there { IsSome (node_row view.now.tables.nodes offer.now.node) }
    ensures { IfOk result (λ rows. rows.items ≡ mounts_for view.now.tables offer.now) }
{
    let (people, tree) = (view.people(), view.tree());
    let users = users_for(alloc, people, owner_of(tree, offer.node), &offer.to)?;
    view.mounts()
        .ensured_for(alloc, people, tree, offer.node, &users)
}

/// The users who are to have a mount by a share: the one that it names, or the members of the group but for the owner; by a link nobody.
fn users_for(
    alloc: Global,
    people: &People,
    owner: UserId,
    to: &Receiver,
) -> Result<Vec<UserId>, AllocError>
    ensures users { IfOk result (λ users. users.items ≡ users_for people.now.members owner to.now) }
    ensures rising { IfOk result (λ users. IsStrictlyIncreasing users.items) }
{
    match to {
        Receiver::User(user) => one(alloc, *user),
        Receiver::Group(group) => members_but(alloc, people, owner, *group),
        Receiver::Link => Ok(Vec::new(alloc)),
    }
}

/// The members of a group but for a user.
fn members_but(
    alloc: Global,
    people: &People,
    but: UserId,
    group: GroupId,
) -> Result<Vec<UserId>, AllocError>
    ensures users { IfOk result (λ users. users.items ≡ filter (λ user. not (user == but)) (members_of people.now.members group)) }
    ensures rising { IfOk result (λ users. IsStrictlyIncreasing users.items) }
{
    let mut users = people.members(alloc, group)?;
    leave_out(&mut users, but);
    Ok(users)
}

/// Leaves a user out.
fn leave_out(users: &mut Vec<UserId>, but: UserId)
    ensures { users.new.items ≡ filter (λ user. not (user == but)) users.old.items }
{
    users.retain(|user| *user != but)
}

fn one(alloc: Global, user: UserId) -> Result<Vec<UserId>, AllocError>
    ensures { IfOk result (λ users. users.items ≡ user ∷ []) }
{
    let mut users = Vec::new(alloc);
    users.push(user)?;
    Ok(users)
}

/// Puts rows of mounts behind some changes.
pub fn push_mounts(changes: &mut Changes, rows: Vec<MountRow>) -> Result<(), AllocError>
    ensures { OnOk result (changes.new ≡ changes.old ++ put_mounts rows.items) }
{
    for row in rows {
        changes.push(Change::Put(Row::Mount(row)))?;
    }
    Ok(())
}
