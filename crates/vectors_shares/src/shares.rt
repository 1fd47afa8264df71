//! Lists of shares, chains at their longest, and as many shares as may be, made by loops.

use crate::rows::put_in;
use nf_base::{
    Act, MAX_CHAIN, MAX_SHARES, Moment, Name, NodeId, Perms, ShareId, ShareKind, ShareRow, UserId,
};
use nf_defs::{Grant, Seeker};
use nf_grants::Ground;
use nf_people::People;
use nf_shares::{ShareFault, Shares};
use nf_tree::Tree;
use std::alloc::{AllocError, Global};
use std::test::Fail;

/// A share of user 1's node of that number, with all permissions: for the user whose number is one more than the share's. It is the first,
/// or passes on the share before it.
pub(crate) fn share(number: u32, node: u32, passes_on: bool) -> Result<ShareRow, Fail> {
    let owner = UserId::new(1);
    let parent = passes_on.then_some(ShareId::new(number.wrapping_sub(1).into()));
    Ok(ShareRow {
        id: ShareId::new(number.into()),
        kind: ShareKind::User(UserId::new(number.wrapping_add(1))),
        node: NodeId::new(node.into()),
        owner,
        initiator: if passes_on {
            UserId::new(number)
        } else {
            owner
        },
        parent,
        perms: Perms::read(31).ok_or("no permissions")?,
        until: None,
        ended: false,
        made: Moment::new(1_000),
    })
}

/// Makes a share of a number that no share has.
fn make(shares: &mut Shares, row: ShareRow) -> Result<Result<(), ShareFault>, Fail> {
    if shares.row(row.id).is_some() {
        return Err("its number is another's")?;
    }
    Ok(shares.create(row, Moment::new(1_000)))
}

/// So many shares, each passing on the one before it, or each of a node of its own.
fn shares(alloc: Global, count: u32, pass_on: bool) -> Result<Shares, Fail> {
    let mut shares = Shares::new(alloc);
    for number in 1..=count {
        let node = if pass_on { 7 } else { number };
        let row = share(number, node, pass_on && number > 1)?;
        if make(&mut shares, row)?.is_err() {
            return Err("a share isn't made")?;
        }
    }
    Ok(shares)
}

#[test]
fn a_chain_of_sixteen_is_the_longest(rt: HostRuntime) -> Result<(), Fail> {
    let mut shares = shares(rt.alloc(), MAX_CHAIN as u32, true)?;
    assert!(rt; shares.depth(ShareId::new(16)) == 16);
    let made = make(&mut shares, share(17, 7, true)?)?;
    assert!(rt; made == Err(ShareFault::Chain));
    Ok(())
}

/// The one grant of a user on node 7.
fn grant_on_seven(alloc: Global, shares: &Shares, user: u32) -> Result<Grant, Fail> {
    let (people, tree) = (People::new(alloc), Tree::new(alloc));
    let ground = Ground::new(&people, &tree, shares);
    let (user, node) = (UserId::new(user), NodeId::new(7));
    let grants = ground.grants(alloc, Seeker::User(user), node)?;
    let grant = grants.first().ok_or("nothing is granted")?;
    if ground.allows(Seeker::User(user), node, Act::Share, Moment::new(1_000))
        != Some(grant.share)
    {
        return Err("it isn't allowed")?;
    }
    Ok(*grant)
}

#[test]
fn the_last_of_a_chain_is_granted_what_all_allow(rt: HostRuntime) -> Result<(), Fail> {
    let alloc = rt.alloc();
    let mut shares = shares(alloc, 16, true)?;
    let grant = grant_on_seven(alloc, &shares, 17)?;
    assert!(rt; grant.share == ShareId::new(16) && grant.mask.bits() == 31);
    if shares.row(ShareId::new(3)).is_some() {
        let perms = Perms::read(17).ok_or("no permissions")?;
        shares.set_perms(ShareId::new(3), perms);
    }
    assert!(rt; grant_on_seven(alloc, &shares, 17)?.mask.bits() == 17);
    Ok(())
}

#[test]
fn as_many_shares_as_may_be(rt: HostRuntime) -> Result<(), Fail> {
    let mut shares = shares(rt.alloc(), MAX_SHARES as u32, false)?;
    assert!(rt; shares.count() == 65_536);
    let made = make(&mut shares, share(65_537, 7, false)?)?;
    assert!(rt; made == Err(ShareFault::Limit));
    Ok(())
}

/// Shares 1 and 4 of node 7, share 2 of node 7, which passes the first on, and share 3 of node 9.
fn a_few(alloc: Global) -> Result<Shares, Fail> {
    let mut rows = Vec::new(alloc);
    put_in(&mut rows, share(1, 7, false)?)?;
    put_in(&mut rows, share(2, 7, true)?)?;
    put_in(&mut rows, share(3, 9, false)?)?;
    put_in(&mut rows, share(4, 7, false)?)?;
    Ok(Shares::load(alloc, rows)?)
}

/// Whether these are the shares of those numbers, in that order.
fn are(ids: Result<Vec<ShareId>, AllocError>, numbers: &[u64]) -> Result<bool, Fail> {
    let ids = ids?;
    Ok(
        ids.len() == numbers.len()
            && ids
                .iter()
                .zip(numbers)
                .all(|(id, number)| *id == ShareId::new(*number)),
    )
}

#[test]
fn lists_of_shares(rt: HostRuntime) -> Result<(), Fail> {
    let alloc = rt.alloc();
    let shares = a_few(alloc)?;
    assert!(rt; are(shares.on_node(alloc, NodeId::new(7)), &[1, 2, 4])?);
    assert!(rt; are(shares.children(alloc, ShareId::new(1)), &[2])?);
    assert!(rt; are(shares.made_by(alloc, UserId::new(1)), &[1, 3, 4])?);
    Ok(())
}

#[test]
fn what_is_received(rt: HostRuntime) -> Result<(), Fail> {
    let alloc = rt.alloc();
    let (people, tree, shares) = (People::new(alloc), Tree::new(alloc), a_few(alloc)?);
    let ground = Ground::new(&people, &tree, &shares);
    let (third, owner) = (Seeker::User(UserId::new(3)), Seeker::User(UserId::new(1)));
    assert!(rt; are(shares.received(alloc, &ground, third), &[2])?);
    assert!(rt; are(shares.received(alloc, &ground, owner), &[])?);
    Ok(())
}

// ---- links

/// Share 1 of node 7, and share 2, a link to it of the token `abc`, which lets its nodes be read.
fn with_a_link(alloc: Global) -> Result<Shares, Fail> {
    let token = Name::read(alloc, b"abc").ok().ok_or("no name")?;
    let link = ShareRow {
        kind: ShareKind::Link(token),
        perms: Perms::read(1).ok_or("no permissions")?,
        ..share(2, 7, false)?
    };
    let mut rows = Vec::new(alloc);
    put_in(&mut rows, share(1, 7, false)?)?;
    put_in(&mut rows, link)?;
    Ok(Shares::load(alloc, rows)?)
}

/// The number of the link of that token.
fn link_of(shares: &Shares, token: &[u8]) -> Option<ShareId> {
    Some(shares.by_link(token)?.id)
}

#[test]
fn a_link_is_found_by_its_token(rt: HostRuntime) -> Result<(), Fail> {
    let shares = with_a_link(rt.alloc())?;
    assert!(rt; link_of(&shares, b"abc") == Some(ShareId::new(2)));
    assert!(rt; link_of(&shares, b"abd").is_none() && link_of(&shares, b"ab").is_none());
    Ok(())
}

#[test]
fn a_link_receives_its_own_share(rt: HostRuntime) -> Result<(), Fail> {
    let alloc = rt.alloc();
    let (people, tree, shares) = (People::new(alloc), Tree::new(alloc), with_a_link(alloc)?);
    let ground = Ground::new(&people, &tree, &shares);
    let (link, node) = (Seeker::Link(ShareId::new(2)), NodeId::new(7));
    assert!(rt; are(shares.received(alloc, &ground, link), &[2])?);
    let grants = ground.grants(alloc, link, node)?;
    let grant = grants.first().ok_or("nothing is granted")?;
    assert!(rt; grants.len() == 1 && grant.share == ShareId::new(2) && grant.mask.bits() == 1);
    let now = Moment::new(1_000);
    assert!(rt; ground.allows(link, node, Act::Read, now) == Some(ShareId::new(2)));
    assert!(rt; ground.allows(link, node, Act::Update, now).is_none());
    Ok(())
}
