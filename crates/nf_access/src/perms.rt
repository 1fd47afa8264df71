//! The permissions that a share may have.

ghost use Rattle.std.specs.Prelude.{◌≡◌, ◌<◌, ℕ, List, bit_and, bit_or};
ghost use Rattle.nf_base.specs.Perms.{bit_of};
ghost use Rattle.nf_base.specs.declared.perms.Act.TheVariants as act;
ghost use Rattle.nf_access.specs.Making.{is_part};
ghost use Rattle.nf_access.specs.Shares.{most_of_node, most_of_share, perms_of_share};
ghost use Rattle.nf_base.specs.declared.rows.ShareKind.TheVariants as kind;

use nf_base::{NodeKind, Perms, ShareKind};

/// The permissions to do nothing.
pub fn nothing() -> Perms
    ensures { result ≡ 0 }
{
    Perms::read(0).unwrap()
}

/// Whether all of these permissions are among those.
pub fn is_part(perms: Perms, all: Perms) -> bool
    ensures { result ≡ is_part perms all }
{
    perms.and(all) == perms
}

/// The permissions of a share for which some are asked: those of a file lack create and delete, those of a link lack share, and read
/// is always among them.
pub fn perms_of_share(node: NodeKind, to: &ShareKind, wanted: Perms) -> Perms
    ensures { result ≡ perms_of_share node to.now wanted }
{
    perms_within(node, most_of_share(to), wanted)
}

/// The same of a link, whatever its token is.
pub fn perms_of_link(node: NodeKind, wanted: Perms) -> Perms
    ensures { (token : List ℕ) → result ≡ perms_of_share node (kind.Link token) wanted }
{
    perms_within(node, 15, wanted)
}

/// Of the permissions that are asked for those that both the node and the seekers let a share have, and read.
fn perms_within(node: NodeKind, most: u8, wanted: Perms) -> Perms
    requires { most < 32 }
    ensures { result ≡ bit_or (bit_and wanted (bit_and (most_of_node node) most)) (bit_of act.Read) }
{
    let bits = wanted.bits() & (most_of_node(node) & most) | 1;
    Perms::read(bits).unwrap()
}

fn most_of_node(node: NodeKind) -> u8
    ensures { result ≡ most_of_node node }
{
    match node {
        NodeKind::File => 19,
        NodeKind::Folder => 31,
    }
}

fn most_of_share(to: &ShareKind) -> u8
    ensures { result ≡ most_of_share to.now }
{
    match to {
        ShareKind::User(_) | ShareKind::Group(_) => 31,
        ShareKind::Link(_) => 15,
    }
}
