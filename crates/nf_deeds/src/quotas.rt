//! The quotas of users.

ghost use Rattle.std.specs.Prelude.{◌≡◌, ◌+◌, ◌-◌, ◌&&◌, nat_lt, option_and_then};
ghost use Rattle.std.specs.Option.{option_map_or};
ghost use Rattle.nf_words.specs.Versions.{version_row};
ghost use Rattle.nf_words.specs.Charges.{back_excess, carry_excess, copy_excess, excess, excess_at, quota_of, restore_excess};
ghost use Rattle.nf_words.specs.Listing.{size_of};
ghost use Rattle.nf_words.specs.Sound.{AreSound};

use nf_base::{ItemRow, Moment, NodeId, UserId};
use nf_defs::Found;
use nf_view::{View, bytes_of, crosses, owner_of, version_row};
use nf_words::{Excess, Transfer};

/// How a body of so many bytes would pass the quota of the owner of what it replaces there, or of its folder.
pub fn excess_at(view: &View<'_>, place: &Found, length: u64) -> Option<Excess>
    requires { AreSound view.now.tables }
    ensures { result ≡ excess_at view.now.tables length place.now }
{
    match place {
        Found::At(node) => {
            let old = bytes_of(view.tree(), *node);
            excess(view, owner_of(view.tree(), *node), old, length)
        }
        Found::Free { folder } => excess(view, owner_of(view.tree(), *folder), 0, length),
        Found::Missing { .. } => None,
    }
}

/// How what is moved would pass a quota, where it comes to another owner.
pub fn carry_excess(view: &View<'_>, transfer: &Transfer) -> Option<Excess>
    requires { AreSound view.now.tables }
    ensures { result ≡ carry_excess view.now.tables transfer.now }
{
    if crosses(view.tree(), transfer) {
        copy_excess(view, transfer)
    } else {
        None
    }
}

/// How copies would pass the quota of their folder's owner.
pub fn copy_excess(view: &View<'_>, transfer: &Transfer) -> Option<Excess>
    requires { AreSound view.now.tables }
    ensures { result ≡ copy_excess view.now.tables transfer.now }
{
    let old = size_replaced(view, &transfer.replaced);
    let new = view.size(transfer.node);
    let owner = owner_of(view.tree(), transfer.folder);
    excess(view, owner, old, new)
}

/// How what comes back would pass its owner's quota: it is charged anew.
pub fn restore_excess(view: &View<'_>, item: &ItemRow) -> Option<Excess>
    requires { AreSound view.now.tables }
    ensures { result ≡ restore_excess view.now.tables item.now }
{
    excess(view, item.owner, 0, view.size(item.node))
}

/// How a version would pass the quota of its file's owner, as the file's content.
pub fn back_excess(view: &View<'_>, node: NodeId, at: Moment) -> Option<Excess>
    requires { AreSound view.now.tables }
    ensures { result ≡ option_and_then (back_excess view.now.tables node) (version_row view.now.tables.versions node at) }
{
    let version = version_row(view, node, at)?;
    let old = bytes_of(view.tree(), node);
    excess(
        view,
        owner_of(view.tree(), node),
        old,
        version.content.size(),
    )
}

/// The bytes of what has to go, if there is something.
pub(crate) fn size_replaced(view: &View<'_>, replaced: &Option<NodeId>) -> u64
    requires { AreSound view.now.tables }
    ensures { result ≡ option_map_or (size_of view.now.tables.nodes) replaced.now 0 }
{
    match replaced {
        Some(node) => view.size(*node),
        None => 0,
    }
}

/// How a charge would pass the quota with so many bytes in the place of so many.
fn excess(view: &View<'_>, user: UserId, old: u64, new: u64) -> Option<Excess>
    requires { AreSound view.now.tables }
    ensures { result ≡ excess view.now.tables user old new }
{
    let charge = view.charge(user);
    let quota = quota_of(view, user);
    if is_over(charge, quota, old, new) {
        Some(Excess {
            charge,
            quota,
            size: new,
        })
    } else {
        None
    }
}

fn is_over(charge: u64, quota: u64, old: u64, new: u64) -> bool
    ensures { result ≡ (nat_lt old new && nat_lt quota (charge - old + new)) }
{
    let after = u128::from(charge.saturating_sub(old)) + u128::from(new);
    old < new && u128::from(quota) < after
}

/// What the files of a user may take up, in bytes.
pub(crate) fn quota_of(view: &View<'_>, user: UserId) -> u64
    ensures { result ≡ quota_of view.now.tables user }
{
    match view.people().row(user) {
        Some(row) => row.quota,
        None => 0,
    }
}
