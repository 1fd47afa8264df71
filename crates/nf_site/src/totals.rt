//! What users' files, trash and versions take up, and what shares grant them.

ghost use Rattle.std.specs.Prelude.{◌≡◌, ◌+◌, ◌*◌, ◌^◌, ◌<◌, ◌≤◌, ◌++◌, length, filter_map, option_to_list, sum_by, IfOk, OnOk};
ghost use Rattle.nf_base.specs.declared.limits.TheConstants.{MAX_NODES, MAX_SHARES};
ghost use Rattle.nf_words.specs.Prelude.{last_number};
ghost use Rattle.nf_words.specs.Versions.{is_held_by as is_held};
ghost use Rattle.nf_site.specs.Totals.{counted, counted_row, grants_by, grants_in, held_bytes, versions_in};

use nf_base::{Name, Row, UserId, UserRow, VersionRow};
use nf_defs::Seeker;
use nf_grants::Ground;
use nf_tree::Tree;
use std::alloc::{AllocError, Global};

/// What a user's files, trash and versions take up, in bytes.
#[derive(Drop)]
pub struct UserTotals {
    pub name: Name,
    /// What counts against the quota.
    pub charge: u128,
    pub trash: u128,
    pub versions: u128,
}

/// What those of all users do, by rising number, and how many grants the users have together, on all nodes.
#[derive(Drop)]
pub struct Totals {
    pub users: Vec<UserTotals>,
    pub grants: u128,
}

/// The totals of the users among some rows.
pub(crate) fn totals_in(
    alloc: Global,
    tree: &Tree,
    versions: &[VersionRow],
    base: &Ground<'_>,
    rows: &[Row],
) -> Result<Totals, AllocError>
    requires { length base.now.shares ≤ MAX_SHARES }
    ensures users { IfOk result (λ totals. totals.users.items ≡ filter_map (counted_row tree.now.rows versions.now) rows.now) }
    ensures grants { IfOk result (λ totals. totals.grants ≡ sum_by (grants_by base.now tree.now.rows) rows.now) }
{
    let mut totals = Totals {
        users: Vec::new(alloc),
        grants: 0,
    };
    for row in rows {
        add(alloc, tree, versions, base, row, &mut totals)?;
    }
    Ok(totals)
}

// Adds what a row says of a user, if it is one's.
fn add(
    alloc: Global,
    tree: &Tree,
    versions: &[VersionRow],
    base: &Ground<'_>,
    row: &Row,
    totals: &mut Totals,
) -> Result<(), AllocError>
    requires few { length base.now.shares ≤ MAX_SHARES }
    requires room { totals.old.grants + MAX_SHARES * MAX_NODES < 2 ^ 128 }
    ensures users { OnOk result (totals.new.users.items ≡ totals.old.users.items ++ option_to_list (counted_row tree.now.rows versions.now row.now)) }
    ensures grants { OnOk result (totals.new.grants ≡ totals.old.grants + grants_by base.now tree.now.rows row.now) }
    ensures few { OnOk result (grants_by base.now tree.now.rows row.now ≤ MAX_SHARES * MAX_NODES) }
{
    match row {
        Row::User(user) => {
            totals.users.push(user_totals(tree, versions, user)?)?;
            totals.grants += grants_of(alloc, tree, base, user.id)?;
            Ok(())
        }
        _ => Ok(()),
    }
}

// What is under the user's root is what counts; the rest of what is the user's is in the trash.
fn user_totals(
    tree: &Tree,
    versions: &[VersionRow],
    user: &UserRow,
) -> Result<UserTotals, AllocError>
    ensures { IfOk result (λ totals. totals ≡ counted tree.now.rows versions.now user.now) }
{
    let charge = tree.bytes_under(user.root);
    Ok(UserTotals {
        name: user.name.copy()?,
        charge,
        trash: tree.bytes_of(user.id).saturating_sub(charge),
        versions: version_bytes(tree, versions, user.id),
    })
}

// How many bytes the versions of a user's files have together.
fn version_bytes(tree: &Tree, versions: &[VersionRow], user: UserId) -> u128
    ensures { result ≡ versions_in tree.now.rows versions.now user }
{
    let mut bytes = 0;
    for row in versions {
        bytes += bytes_held(tree, row, user);
    }
    bytes
}

// How many of them a version is.
fn bytes_held(tree: &Tree, row: &VersionRow, user: UserId) -> u128
    ensures bytes { result ≡ held_bytes tree.now.rows user row.now }
    ensures few { result ≤ last_number }
{
    if is_held_by(tree, user, row) {
        u128::from(row.content.size())
    } else {
        0
    }
}

fn is_held_by(tree: &Tree, user: UserId, row: &VersionRow) -> bool
    ensures { result ≡ is_held tree.now.rows user row.now }
{
    match tree.node(row.node) {
        Some(node) => node.owner == user,
        None => user == UserId::new(0),
    }
}

// How many grants a user has on all nodes.
#[tactic(auto, using(crate::proofs::Few::few_grants))]
fn grants_of(
    alloc: Global,
    tree: &Tree,
    base: &Ground<'_>,
    user: UserId,
) -> Result<u128, AllocError>
    requires { length base.now.shares ≤ MAX_SHARES }
    ensures count { IfOk result (λ count. count ≡ grants_in base.now tree.now.rows user) }
    ensures few { IfOk result (λ count. count ≤ MAX_SHARES * MAX_NODES) }
{
    let nodes = tree.nodes();
    let mut count = 0;
    for node in nodes {
        count += base.grants(alloc, Seeker::User(user), node.id)?.len() as u128;
    }
    Ok(count)
}
