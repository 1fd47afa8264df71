//! The rule that what a row names is there.

ghost use Rattle.std.specs.Prelude.{◌≡◌, not, true};
ghost use Rattle.std.specs.Option.{option_map_or};
ghost use Rattle.nf_defs.specs.Prelude.{AreRising, tables_of};
ghost use Rattle.nf_rules.specs.Rules.{are_share_names_there, first_index, is_place_there, is_recipient_there, is_share, names_are_there};

use crate::Loaded;
use crate::first::first;
use nf_base::{Place, Row, ShareId, ShareKind, ShareRow};

/// The first row that names something that isn't there.
pub(crate) fn first_dangling(loaded: &Loaded, rows: &[Row]) -> Option<usize>
    requires tables { loaded.now ≡ tables_of rows.now }
    requires rising { AreRising loaded.now }
    ensures { result ≡ first_index (λ row. not (names_are_there (tables_of rows.now) row)) rows.now }
{
    first(rows, |row| !names_are_there(loaded, row))
}

fn names_are_there(loaded: &Loaded, row: &Row) -> bool
    requires { AreRising loaded.now }
    ensures { result ≡ names_are_there loaded.now row.now }
{
    match row {
        Row::User(row) => loaded.node(row.root).is_some(),
        Row::Token(row) => loaded.user(row.user).is_some(),
        Row::Member(row) => loaded.has_group(row.group) && loaded.user(row.user).is_some(),
        Row::Node(row) => loaded.user(row.owner).is_some() && is_place_there(loaded, row.place),
        Row::Share(row) => are_share_names_there(loaded, row),
        Row::Mount(row) => loaded.user(row.user).is_some(),
        Row::Version(row) => loaded.node(row.node).is_some(),
        Row::Item(row) => loaded.user(row.owner).is_some() && loaded.node(row.node).is_some(),
        Row::Upload(row) => loaded.user(row.user).is_some(),
        Row::Chunk(row) => loaded.has_upload(row.user, &row.dir),
        _ => true,
    }
}

fn is_place_there(loaded: &Loaded, place: Place) -> bool
    requires { AreRising loaded.now }
    ensures { result ≡ is_place_there loaded.now place }
{
    match place {
        Place::Inside(folder) => loaded.node(folder).is_some(),
        Place::Root | Place::Trash => true,
    }
}

/// Whether the users, the group and the share that a share names are there, and its node unless it is ended.
fn are_share_names_there(loaded: &Loaded, row: &ShareRow) -> bool
    requires { AreRising loaded.now }
    ensures { result ≡ are_share_names_there loaded.now row.now }
{
    loaded.user(row.owner).is_some()
        && loaded.user(row.initiator).is_some()
        && is_recipient_there(loaded, &row.kind)
        && is_parent_there(loaded, row.parent)
        && (row.ended || loaded.node(row.node).is_some())
}

fn is_recipient_there(loaded: &Loaded, to: &ShareKind) -> bool
    requires { AreRising loaded.now }
    ensures { result ≡ is_recipient_there loaded.now to.now }
{
    match to {
        ShareKind::User(user) => loaded.user(*user).is_some(),
        ShareKind::Group(group) => loaded.has_group(*group),
        ShareKind::Link(_) => true,
    }
}

fn is_parent_there(loaded: &Loaded, parent: Option<ShareId>) -> bool
    requires { AreRising loaded.now }
    ensures { result ≡ option_map_or (is_share loaded.now) parent true }
{
    match parent {
        Some(parent) => loaded.share(parent).is_some(),
        None => true,
    }
}
