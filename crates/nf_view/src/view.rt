//! What a decision reads of the site: its parts, lent one by one.

ghost use Rattle.std.specs.Prelude.{◌≡◌, ◌*◌, ◌≤◌, length, sum_by};
ghost use Rattle.nf_base.specs.declared.limits.TheConstants.{MAX_PIECES};
ghost use Rattle.nf_tree.specs.Order.{AreRisingNodes};
ghost use Rattle.nf_access.specs.Shares.{ground_of};
ghost use Rattle.nf_words.specs.Charges.{charge_of};
ghost use Rattle.nf_words.specs.Contents.{stored_pieces};
ghost use Rattle.nf_words.specs.Listing.{size_of};
ghost use Rattle.nf_words.specs.Sound.{AreSound};
ghost use Rattle.nf_words.specs.Prelude.{last_number};
ghost use Rattle.nf_words.specs.Trash.{item_size, items_of};

use nf_base::{MetaRow, Moment, NodeId, UserId, VersionRow};
use nf_defs::Seeker;
use nf_mounts::Mounts;
use nf_people::People;
use nf_reach::Asker;
use nf_shares::Shares;
use nf_table::Table;
use nf_trash::Trash;
use nf_tree::Tree;
use nf_uploads::Uploads;
use nf_words::Ticket;
use std::marker::Model;

/// The rows of each kind, the tickets and the greatest moment seen.
#[derive(Drop)]
pub struct View<'a> {
    pub meta: &'a MetaRow,
    pub people: &'a People,
    pub tree: &'a Tree,
    pub shares: &'a Shares,
    pub mounts: &'a Mounts,
    pub versions: &'a Table<VersionRow>,
    pub items: &'a Trash,
    pub uploads: &'a Uploads,
    pub tickets: &'a [Ticket],
    pub seen: Moment,
}

impl<'a> Model for View<'a> {
    ghost use Rattle.nf_words.specs.State.{State};
    ghost use Rattle.nf_view.specs.Rows.{tables_in};

    ghost Value = { State };

    ghost view = { λ v. record {
      tables = tables_in v.meta.now v.people.now v.tree.now.rows v.shares.now.rows v.mounts.now.rows v.versions.now.rows v.items.now.rows v.uploads.now.uploads v.uploads.now.chunks;
      tickets = v.tickets.now;
      seen = v.seen;
    } };
}

impl<'a> View<'a> {
    pub fn meta(&self) -> &MetaRow
        ensures { result.now ≡ self.now.tables.meta }
    {
        self.meta
    }

    pub fn people(&self) -> &People
        ensures users { result.now.users ≡ self.now.tables.users }
        ensures tokens { result.now.tokens ≡ self.now.tables.tokens }
        ensures groups { result.now.groups ≡ self.now.tables.groups }
        ensures members { result.now.members ≡ self.now.tables.members }
    {
        self.people
    }

    pub fn tree(&self) -> &Tree
        ensures { result.now.rows ≡ self.now.tables.nodes }
    {
        self.tree
    }

    /// Who asks, what its paths lead from, and when.
    pub fn asker(&self, seeker: Seeker, root: NodeId, moment: Moment) -> Asker<'_>
        requires { AreSound self.now.tables }
        ensures { result ≡ record { base = ground_of self.now.tables; mounts = self.now.tables.mounts; seeker = seeker; root = root; moment = moment } }
    {
        Asker::new(
            self.people,
            self.tree,
            self.shares,
            self.mounts,
            seeker,
            root,
            moment,
        )
    }

    pub fn shares(&self) -> &Shares
        ensures { result.now.rows ≡ self.now.tables.shares }
    {
        self.shares
    }

    pub fn mounts(&self) -> &Mounts
        ensures { result.now.rows ≡ self.now.tables.mounts }
    {
        self.mounts
    }

    /// The versions, by rising node and moment.
    pub fn versions(&self) -> &Table<VersionRow>
        ensures { result.now.rows ≡ self.now.tables.versions }
    {
        self.versions
    }

    /// The items of the trash.
    pub fn items(&self) -> &Trash
        ensures { result.now.rows ≡ self.now.tables.items }
    {
        self.items
    }

    /// The uploads and their chunks.
    pub fn uploads(&self) -> &Uploads
        ensures uploads { result.now.uploads ≡ self.now.tables.uploads }
        ensures chunks { result.now.chunks ≡ self.now.tables.chunks }
    {
        self.uploads
    }

    pub fn tickets(&self) -> &[Ticket]
        ensures { result.now ≡ self.now.tickets }
    {
        self.tickets
    }

    /// The bytes of a file, or of all files under a folder.
    pub fn size(&self, node: NodeId) -> u64
        requires { AreSound self.now.tables }
        ensures { result ≡ size_of self.now.tables.nodes node }
    {
        self.tree.bytes_under(node) as u64
    }

    /// How many bytes the user's files take up: what the user's root has under it.
    pub fn charge(&self, user: UserId) -> u64
        requires { AreSound self.now.tables }
        ensures { result ≡ charge_of self.now.tables user }
    {
        match self.people.row(user) {
            Some(row) => self.size(row.root),
            None => 0,
        }
    }

    /// How many bytes a user's items of the trash have together: all that is the user's, but for what the user is charged for.
    pub fn trashed(&self, user: UserId) -> u128
        requires { AreSound self.now.tables }
        ensures sum { result ≡ sum_by (item_size self.now.tables) (items_of self.now.tables user) }
        ensures few { result ≤ last_number }
    {
        self.tree.bytes_of(user) - u128::from(self.charge(user))
    }

    /// How many pieces the rows name, with repeats.
    pub fn stored_pieces(&self) -> u128
        ensures { result ≡ stored_pieces self.now.tables }
    {
        self.tree.pieces() as u128 + (pieces_in(self.versions.rows()) + self.uploads.pieces())
    }

    /// Tells callers that the nodes are by rising number; it does nothing.
    pub fn keeps(&self)
        ensures { AreRisingNodes self.now.tables.nodes }
    {
        let _ = self.tree.nodes();
    }
}

/// How many pieces some versions have, with repeats. No sum of these passes a u128.
fn pieces_in(rows: &[VersionRow]) -> u128
    ensures count { result ≡ sum_by (λ row. length row.content) rows.now }
    ensures few { result ≤ MAX_PIECES * length rows.now }
{
    let mut count = 0;
    for row in rows {
        count += row.content.pieces().len() as u128;
    }
    count
}
