//! What becomes of a mount, and as many mounts as may be, made by a loop.

ghost use Rattle.std.specs.Prelude.{◌≡◌, IfOk};

use crate::rows::put_in;
use crate::shares::share;
use nf_base::{
    Content, MAX_MOUNTS, Moment, MountRow, Name, NodeId, NodeKind, NodeRow, Place, UserId,
};
use nf_grants::Ground;
use nf_mounts::Mounts;
use nf_people::People;
use nf_shares::Shares;
use nf_tree::Tree;
use std::alloc::Global;
use std::test::Fail;

fn name(alloc: Global, bytes: &[u8]) -> Result<Name, Fail> {
    Ok(Name::read(alloc, bytes).ok().ok_or("no name")?)
}

/// The mount of node 7 under that name, for the user of that number.
fn mount(alloc: Global, user: u32, bytes: &[u8]) -> Result<MountRow, Fail> {
    Ok(MountRow {
        user: UserId::new(user),
        node: NodeId::new(7),
        name: name(alloc, bytes)?,
        left: false,
    })
}

fn put(mounts: &mut Mounts, row: MountRow) -> Result<(), Fail> {
    mounts.reserve(1)?;
    mounts.put(row);
    Ok(())
}

#[test]
fn as_many_mounts_as_may_be(rt: HostRuntime) -> Result<(), Fail> {
    let alloc = rt.alloc();
    let mut mounts = Mounts::new(alloc);
    for user in 1..MAX_MOUNTS as u32 {
        put(&mut mounts, mount(alloc, user, b"plans")?)?;
    }
    assert!(rt; mounts.has_room(1) && !mounts.has_room(2));
    put(&mut mounts, mount(alloc, 262_144, b"notes")?)?;
    assert!(rt; mounts.count() == 262_144 && !mounts.has_room(1));
    let notes = name(alloc, b"notes")?;
    assert!(rt; mounts.at(UserId::new(262_144), &notes) == Some(NodeId::new(7)));
    assert!(rt; mounts.at(UserId::new(5), &notes).is_none());
    Ok(())
}

/// A folder `plans` of that number, at that place.
fn plans(alloc: Global, number: u64, place: Place) -> Result<NodeRow, Fail>
    ensures number { IfOk result (λ row. row.id ≡ number) }
    ensures place { IfOk result (λ row. row.place ≡ place) }
{
    Ok(NodeRow {
        id: NodeId::new(number),
        owner: UserId::new(1),
        place,
        name: name(alloc, b"plans")?,
        kind: NodeKind::Folder,
        content: Content::empty(alloc),
        changed: Moment::new(1_000),
    })
}

/// Node 0, which is the root of users without rows, in it a folder `plans`, node 3, and elsewhere another, node 7.
fn two_plans(alloc: Global) -> Result<Tree, Fail> {
    let mut rows = Vec::new(alloc);
    rows.push(plans(alloc, 0, Place::Root)?)?;
    rows.push(plans(alloc, 3, Place::Inside(NodeId::new(0)))?)?;
    rows.push(plans(alloc, 7, Place::Root)?)?;
    Ok(Tree::load(alloc, rows)?)
}

/// Mounts of node 7 for users 4 and 5.
fn others(alloc: Global) -> Result<Mounts, Fail> {
    let mut rows = Vec::new(alloc);
    put_in(&mut rows, mount(alloc, 5, b"plans")?)?;
    put_in(&mut rows, mount(alloc, 4, b"plans")?)?;
    Ok(Mounts::load(alloc, rows)?)
}

/// The row that gives user 2 a mount of node 7, where it has none.
fn ensured(alloc: Global, tree: &Tree, mounts: &Mounts) -> Result<Option<MountRow>, Fail> {
    let node = NodeId::new(7);
    if tree.node(node).is_none() || mounts.count() > MAX_MOUNTS {
        return Err("the node isn't there, or there are too many mounts")?;
    }
    let people = People::new(alloc);
    Ok(mounts.ensured(alloc, &people, tree, UserId::new(2), node)?)
}

/// Gives user 2 a mount of node 7, which has none, and after that none is missing.
fn ensure(alloc: Global, tree: &Tree, mounts: &mut Mounts) -> Result<(), Fail> {
    let row = ensured(alloc, tree, mounts)?.ok_or("nothing is ensured")?;
    put(mounts, row)?;
    match ensured(alloc, tree, mounts)? {
        None => Ok(()),
        Some(_) => Err("it is ensured twice")?,
    }
}

/// Gives user 2's mount of node 7 that name.
fn rename(alloc: Global, tree: &Tree, mounts: &mut Mounts, bytes: &[u8]) -> Result<(), Fail> {
    let (people, name) = (People::new(alloc), name(alloc, bytes)?);
    let row = mounts.renamed(&people, tree, UserId::new(2), NodeId::new(7), &name);
    put(mounts, row.ok().ok_or("it isn't renamed")?)
}

/// Leaves user 2's mount of node 7.
fn leave(mounts: &mut Mounts) -> Result<(), Fail> {
    let row = mounts.left(UserId::new(2), NodeId::new(7))?;
    put(mounts, row.ok_or("it isn't there")?)
}

/// Whether user 2 finds node 7 under that name.
fn is_at(alloc: Global, mounts: &Mounts, bytes: &[u8]) -> Result<bool, Fail> {
    let name = name(alloc, bytes)?;
    Ok(mounts.at(UserId::new(2), &name) == Some(NodeId::new(7)))
}

/// Whether user 2's root lists node 7, which a share gives it, and nothing else.
fn is_listed(alloc: Global, tree: &Tree, mounts: &Mounts) -> Result<bool, Fail> {
    let mut rows = Vec::new(alloc);
    put_in(&mut rows, share(1, 7, false)?)?;
    let (people, shares) = (People::new(alloc), Shares::load(alloc, rows)?);
    let ground = Ground::new(&people, tree, &shares);
    let listed = ground.listed(alloc, mounts, UserId::new(2), Moment::new(1_000))?;
    Ok(listed.as_slice() == [NodeId::new(7)].as_slice())
}

/// Whether user 2 finds node 7 under that name and its root lists it.
fn is_shown(alloc: Global, tree: &Tree, mounts: &Mounts, bytes: &[u8]) -> Result<bool, Fail> {
    Ok(is_at(alloc, mounts, bytes)? && is_listed(alloc, tree, mounts)?)
}

#[test]
fn a_mount_is_ensured_renamed_and_left(rt: HostRuntime) -> Result<(), Fail> {
    let alloc = rt.alloc();
    let (tree, mut mounts) = (two_plans(alloc)?, others(alloc)?);
    ensure(alloc, &tree, &mut mounts)?;
    assert!(rt; is_shown(alloc, &tree, &mounts, b"plans (2)")?);
    rename(alloc, &tree, &mut mounts, b"notes")?;
    assert!(rt; is_shown(alloc, &tree, &mounts, b"notes")?);
    leave(&mut mounts)?;
    assert!(rt; !is_at(alloc, &mounts, b"notes")? && !is_listed(alloc, &tree, &mounts)?);
    Ok(())
}

/// The rows that give users 2, 4 and 6 mounts of node 7, where they have none.
fn ensured_for(alloc: Global, tree: &Tree, mounts: &Mounts) -> Result<Vec<MountRow>, Fail> {
    let node = NodeId::new(7);
    if tree.node(node).is_none() || mounts.count() > MAX_MOUNTS {
        return Err("the node isn't there, or there are too many mounts")?;
    }
    let users = [UserId::new(2), UserId::new(4), UserId::new(6)];
    Ok(mounts.ensured_for(alloc, &People::new(alloc), tree, node, &users)?)
}

/// The rows that give user 2 mounts of both folders, where it has none.
fn ensured_of(alloc: Global, tree: &Tree, mounts: &Mounts) -> Result<Vec<MountRow>, Fail> {
    let (first, second) = (NodeId::new(7), NodeId::new(3));
    if tree.node(first).is_none() || tree.node(second).is_none() || mounts.count() > MAX_MOUNTS {
        return Err("a node isn't there, or there are too many mounts")?;
    }
    let people = People::new(alloc);
    Ok(mounts.ensured_of(alloc, &people, tree, UserId::new(2), &[first, second])?)
}

/// Whether the row is of a mount of that user and node, under that name.
fn is_mount(row: &MountRow, user: u32, node: u64, bytes: &[u8]) -> bool {
    row.user == UserId::new(user)
        && row.node == NodeId::new(node)
        && row.name.as_bytes() == bytes
        && !row.left
}

#[test]
fn mounts_are_ensured_for_those_who_have_none(rt: HostRuntime) -> Result<(), Fail> {
    let alloc = rt.alloc();
    let (tree, mounts) = (two_plans(alloc)?, others(alloc)?);
    let rows = ensured_for(alloc, &tree, &mounts)?;
    assert!(rt; rows.len() == 2);
    assert!(rt; is_mount(&rows[0], 2, 7, b"plans (2)") && is_mount(&rows[1], 6, 7, b"plans (2)"));
    Ok(())
}

#[test]
fn each_of_several_mounts_has_a_name_of_its_own(rt: HostRuntime) -> Result<(), Fail> {
    let alloc = rt.alloc();
    let (tree, mounts) = (two_plans(alloc)?, others(alloc)?);
    let rows = ensured_of(alloc, &tree, &mounts)?;
    assert!(rt; rows.len() == 2);
    assert!(rt; is_mount(&rows[0], 2, 7, b"plans (2)") && is_mount(&rows[1], 2, 3, b"plans (3)"));
    Ok(())
}
