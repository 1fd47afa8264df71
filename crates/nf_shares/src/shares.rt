//! The shares of the site.

ghost use Rattle.std.specs.Prelude.{◌≡◌, ◌≢◌, ◌==◌, ◌≤◌, ◌+◌, true, false, None, Some, [], ◌∷◌, length, map, find, option_copied, option_map, Err, IfOk, IfSome, IsOk, IsSome, OnOk};
ghost use Rattle.std.specs.Fn.{FnOnceReturnsAtMut};
ghost use Rattle.std.specs.Option.{option_map_or};
ghost use Rattle.nf_base.specs.declared.rows.ShareRow.{ShareRow};
ghost use Rattle.nf_access.specs.Broken.{first_received};
ghost use Rattle.nf_access.specs.Shares.{chain_of, chain_within, is_link, link_row, mask_of, receives, share_row};
ghost use Rattle.nf_defs.specs.Prelude.{IsRising, is_under, put, share_key};
ghost use Rattle.nf_shares.specs.Kept.{FitsShare, StaysInPlace, changed, ended_where, ids_of, is_child_of};
ghost use Rattle.nf_access.specs.Making.{is_again};
ghost use Rattle.nf_shares.specs.Making.{IsFirstFault, Makes, fault_of, has_token_of};
ghost use Rattle.nf_table.specs.Rows.{Changes};
ghost use Rattle.nf_shares.specs.declared.faults.ShareFault.TheVariants as fault;

use crate::entries::{Entry, index_of, renew};
use crate::faults::ShareFault;
use crate::rows::{is_again, is_child_of, is_link, is_self_share, receives};
use crate::tokens::TokenFront;
use nf_access::{Facts, nothing};
use nf_base::{MAX_CHAIN, MAX_SHARES, Moment, NodeId, Perms, ShareId, ShareKind, ShareRow, UserId};
use nf_defs::Seeker;
use nf_table::{ShareKey, Table};
use nf_tree::Tree;
use std::alloc::{AllocError, Global};
use std::marker::Model;

/// The shares, by rising number, by their nodes, and by the fronts of their tokens. None of them ever goes.
#[derive(Drop)]
pub struct Shares {
    rows: Table<ShareRow>,
    by_node: Table<Entry<NodeId>>,
    by_token: Table<Entry<TokenFront>>,
}

impl Model for Shares {
    ghost use Rattle.nf_shares.specs.Kept.{AreIndexed, KeptShares, room_of};

    ghost Value = { KeptShares };

    ghost view = { λ shares. record { rows = shares.rows.rows; room = room_of shares.rows shares.by_node shares.by_token } };

    ghost invariant = { λ shares. AreIndexed shares.rows.rows shares.by_node.rows shares.by_token.rows };
}

impl Shares {
    pub fn new(alloc: Global) -> Self
        ensures { result.rows ≡ [] }
    {
        Shares {
            rows: Table::new(alloc),
            by_node: Table::new(alloc),
            by_token: Table::new(alloc),
        }
    }

    /// The shares of these rows.
    pub fn load(alloc: Global, rows: Vec<ShareRow>) -> Result<Self, AllocError>
        requires { IsRising share_key rows.items }
        ensures { IfOk result (λ shares. shares.rows ≡ rows.items) }
    {
        let by_node = index_of(alloc, &rows)?;
        let by_token = index_of(alloc, &rows)?;
        Ok(Shares {
            rows: Table::of(rows),
            by_node,
            by_token,
        })
    }

    /// All rows, by rising number.
    pub fn rows(&self) -> &[ShareRow]
        ensures rows { result.now ≡ self.now.rows }
        ensures rising { IsRising share_key self.now.rows }
    {
        self.rows.rows()
    }

    /// Makes room for so many shares more.
    pub fn reserve(&mut self, count: usize) -> Result<(), AllocError>
        ensures room { OnOk result (length self.new.rows + count ≤ self.new.room) }
        ensures fits { length self.old.rows + count ≤ self.old.room → IsOk result }
        ensures rows { self.new.rows ≡ self.old.rows }
        ensures kept { self.old.room ≤ self.new.room }
    {
        // That what is there fits has to be known for a count of 0.
        let _ = (
            self.rows.count(),
            self.by_node.count(),
            self.by_token.count(),
        );
        self.rows.reserve(count)?;
        self.by_node.reserve(count)?;
        self.by_token.reserve(count)
    }

    /// Tells callers that the rows fit; it does nothing.
    pub fn keeps(&self)
        ensures { length self.now.rows ≤ self.now.room }
    {
        let _ = self.rows.count();
    }

    pub fn row(&self, id: ShareId) -> Option<&ShareRow>
        ensures { option_copied result ≡ share_row self.now.rows id }
    {
        self.rows.find(&ShareKey { id })
    }

    /// The share whose link has that token.
    pub fn by_link(&self, token: &[u8]) -> Option<&ShareRow>
        ensures { option_copied result ≡ link_row self.now.rows token.now }
    {
        let id = self.first_linked(token, self.by_token.front(&TokenFront::of(token)))?;
        self.row(id)
    }

    /// How many shares the share's chain has; 0 where there is none.
    pub fn depth(&self, id: ShareId) -> usize
        ensures { result ≡ length (chain_of self.now.rows id) }
    {
        self.depth_within(id, MAX_CHAIN).unwrap_or(0)
    }

    /// What every share of the share's chain allows, whether or not the chain stands; nothing where there is none.
    pub fn mask(&self, id: ShareId) -> Perms
        ensures { result ≡ mask_of (chain_of self.now.rows id) }
    {
        self.mask_within(id, MAX_CHAIN).unwrap_or(nothing())
    }

    pub fn count(&self) -> usize
        ensures { result ≡ length self.now.rows }
    {
        self.rows.count()
    }

    /// The first share on the node that the seeker receives, ended ones included.
    pub fn first_received<F: Facts>(
        &self,
        facts: &F,
        seeker: Seeker,
        node: NodeId,
    ) -> Option<ShareId>
        ensures { result ≡ option_map (λ row. row.id) (first_received (F.members facts.now) self.now.rows seeker node) }
    {
        self.first_of(facts, seeker, self.entries(node))
    }

    /// The entries of a node's shares.
    pub fn entries(&self, node: NodeId) -> &[Entry<NodeId>]
        ensures numbers { map (λ entry. entry.share) result.now ≡ ids_of (λ row. row.node == node) self.now.rows }
        ensures rising { IsRising share_key self.now.rows }
    {
        self.by_node.front(&node)
    }

    /// The shares of a node.
    pub fn on_node(&self, alloc: Global, node: NodeId) -> Result<Vec<ShareId>, AllocError>
        ensures { IfOk result (λ ids. ids.items ≡ ids_of (λ row. row.node == node) self.now.rows) }
    {
        self.entries(node)
            .iter()
            .map(|entry| entry.share)
            .collect(alloc)
    }

    /// The shares that pass this one on.
    pub fn children(&self, alloc: Global, id: ShareId) -> Result<Vec<ShareId>, AllocError>
        ensures { IfOk result (λ ids. ids.items ≡ ids_of (λ row. is_child_of id row.parent) self.now.rows) }
    {
        self.rows()
            .iter()
            .filter(|row| is_child_of(id, row.parent))
            .map(|row| row.id)
            .collect(alloc)
    }

    /// The shares that the user made.
    pub fn made_by(&self, alloc: Global, user: UserId) -> Result<Vec<ShareId>, AllocError>
        ensures { IfOk result (λ ids. ids.items ≡ ids_of (λ row. row.initiator == user) self.now.rows) }
    {
        self.rows()
            .iter()
            .filter(|row| row.initiator == user)
            .map(|row| row.id)
            .collect(alloc)
    }

    /// The shares that the seeker receives.
    pub fn received<F: Facts>(
        &self,
        alloc: Global,
        facts: &F,
        seeker: Seeker,
    ) -> Result<Vec<ShareId>, AllocError>
        ensures { IfOk result (λ ids. ids.items ≡ ids_of (receives (F.members facts.now) seeker) self.now.rows) }
    {
        self.rows()
            .iter()
            .filter(|row| receives(facts, seeker, row))
            .map(|row| row.id)
            .collect(alloc)
    }

    /// The first share, neither ended nor expired, by which the initiator of a share that is to be made gives its recipient its node already.
    pub fn again(&self, row: &ShareRow, now: Moment) -> Option<ShareId>
        ensures { result ≡ option_map (λ row. row.id) (find (is_again row.now now) self.now.rows) }
    {
        self.again_of(row, now, self.entries(row.node))
    }

    /// Puts in a share of a new number, or says why it can't be made. Where there is room for it, there is memory.
    pub fn create(&mut self, row: ShareRow, now: Moment) -> Result<(), ShareFault>
        requires { share_row self.old.rows row.id ≡ None }
        ensures makes { Makes self.old.rows row now result self.new.rows }
        ensures room { FitsShare self.old → result ≢ Err fault.Memory }
    {
        self.check(&row, now)?;
        self.reserve(1)?;
        self.put(row);
        Ok(())
    }

    /// Puts a row over that of the same share, which is on the same node, or as a new one. It takes no memory.
    pub fn put(&mut self, row: ShareRow)
        requires room { share_row self.old.rows row.id ≡ None → FitsShare self.old }
        requires place { (old : ShareRow) → share_row self.old.rows row.id ≡ Some old → old.node ≡ row.node }
        ensures rows { self.new.rows ≡ put share_key row self.old.rows }
        ensures room { self.old.room ≤ self.new.room }
        ensures count { length self.new.rows ≤ length self.old.rows + 1 }
    {
        renew(&mut self.by_node, &self.rows, &row);
        renew(&mut self.by_token, &self.rows, &row);
        self.rows.put(row);
    }

    /// Ends a share. It takes no memory.
    pub fn end(&mut self, id: ShareId)
        requires { IsSome (share_row self.old.rows id) }
        ensures rows { self.new.rows ≡ changed (λ row. record row { ended = true }) id self.old.rows }
        ensures room { self.new.room ≡ self.old.room }
    {
        self.change(id, |row| row.ended = true);
    }

    /// Ends the shares of the nodes under a top. It takes no memory.
    pub fn end_under(&mut self, tree: &Tree, top: NodeId)
        ensures rows { self.new.rows ≡ ended_where (λ row. is_under tree.now.rows row.node top) self.old.rows }
        ensures room { self.new.room ≡ self.old.room }
    {
        if tree.is_leaf(top) {
            self.end_on(top);
        } else {
            self.end_below(tree, top);
        }
    }

    /// Gives a share other permissions. It takes no memory.
    pub fn set_perms(&mut self, id: ShareId, perms: Perms)
        requires { IsSome (share_row self.old.rows id) }
        ensures rows { self.new.rows ≡ changed (λ row. record row { perms = perms }) id self.old.rows }
        ensures room { self.new.room ≡ self.old.room }
    {
        self.change(id, |row| row.perms = perms);
    }

    /// Gives a share another end moment, or none. It takes no memory.
    pub fn set_until(&mut self, id: ShareId, until: Option<Moment>)
        requires { IsSome (share_row self.old.rows id) }
        ensures rows { self.new.rows ≡ changed (λ row. record row { until = until }) id self.old.rows }
        ensures room { self.new.room ≡ self.old.room }
    {
        self.change(id, |row| row.until = until);
    }
}

impl Shares {
    /// Ends the shares of a node, which are found by it. It takes no memory.
    fn end_on(&mut self, node: NodeId)
        ensures rows { self.new.rows ≡ ended_where (λ row. row.node == node) self.old.rows }
        ensures room { self.new.room ≡ self.old.room }
    {
        for place in 0..self.entries(node).len() {
            let id = self.entries(node)[place].share;
            self.end(id);
        }
    }

    /// Ends the shares of the nodes under a top, whatever is in it: it looks at each share of the site. It takes no memory.
    fn end_below(&mut self, tree: &Tree, top: NodeId)
        ensures rows { self.new.rows ≡ ended_where (λ row. is_under tree.now.rows row.node top) self.old.rows }
        ensures room { self.new.room ≡ self.old.room }
    {
        for place in 0..self.count() {
            let row = &self.rows()[place];
            let (id, node) = (row.id, row.node);
            if tree.under(node, top) {
                self.end(id);
            }
        }
    }

    /// How many shares the share's chain has, where they are at most so many.
    fn depth_within(&self, id: ShareId, most: usize) -> Option<usize>
        requires { most ≤ MAX_CHAIN }
        ensures depth { result ≡ option_map length (chain_within most self.now.rows id) }
        ensures few { IfSome result (λ n. n ≤ most) }
    {
        if most == 0 {
            return None;
        }
        let row = self.row(id)?;
        match row.parent {
            None if row.initiator == row.owner => Some(1),
            None => None,
            Some(parent) => {
                let above = self.depth_within(parent, most - 1)?;
                Some(above + 1)
            }
        }
    }

    /// What every share of the share's chain allows, where there are at most so many.
    fn mask_within(&self, id: ShareId, most: usize) -> Option<Perms>
        ensures { result ≡ option_map mask_of (chain_within most self.now.rows id) }
    {
        if most == 0 {
            return None;
        }
        let row = self.row(id)?;
        match row.parent {
            None if row.initiator == row.owner => Some(row.perms),
            None => None,
            Some(parent) => {
                let above = self.mask_within(parent, most - 1)?;
                Some(row.perms.and(above))
            }
        }
    }

    /// The first of these entries' shares that the seeker receives.
    fn first_of<F: Facts>(
        &self,
        facts: &F,
        seeker: Seeker,
        entries: &[Entry<NodeId>],
    ) -> Option<ShareId>
        ensures { result ≡ find (λ id. option_map_or (receives (F.members facts.now) seeker) (share_row self.now.rows id) false) (map (λ entry. entry.share) entries.now) }
    {
        entries
            .iter()
            .map(|entry| entry.share)
            .find(|id| self.is_received(facts, seeker, *id))
    }

    /// Whether there is a share of that number, which the seeker receives.
    fn is_received<F: Facts>(&self, facts: &F, seeker: Seeker, id: ShareId) -> bool
        ensures { result ≡ option_map_or (receives (F.members facts.now) seeker) (share_row self.now.rows id) false }
    {
        match self.row(id) {
            Some(row) => receives(facts, seeker, row),
            None => false,
        }
    }

    /// The first of these entries' shares that gives the same already.
    fn again_of(&self, row: &ShareRow, now: Moment, entries: &[Entry<NodeId>]) -> Option<ShareId>
        ensures { result ≡ find (λ id. option_map_or (is_again row.now now) (share_row self.now.rows id) false) (map (λ entry. entry.share) entries.now) }
    {
        entries
            .iter()
            .map(|entry| entry.share)
            .find(|id| self.gives_again(row, now, *id))
    }

    /// Whether there is a share of that number, which gives the same already.
    fn gives_again(&self, row: &ShareRow, now: Moment, id: ShareId) -> bool
        ensures { result ≡ option_map_or (is_again row.now now) (share_row self.now.rows id) false }
    {
        match self.row(id) {
            Some(other) => is_again(row, now, other),
            None => false,
        }
    }

    /// The first of these entries' shares that is the link of the token.
    fn first_linked(&self, token: &[u8], entries: &[Entry<TokenFront>]) -> Option<ShareId>
        ensures { result ≡ find (λ id. option_map_or (λ row. is_link token.now row.kind) (share_row self.now.rows id) false) (map (λ entry. entry.share) entries.now) }
    {
        entries
            .iter()
            .map(|entry| entry.share)
            .find(|id| self.is_linked(token, *id))
    }

    /// Whether there is a share of that number, which is the link of the token.
    fn is_linked(&self, token: &[u8], id: ShareId) -> bool
        ensures { result ≡ option_map_or (λ row. is_link token.now row.kind) (share_row self.now.rows id) false }
    {
        match self.row(id) {
            Some(row) => is_link(token, &row.kind),
            None => false,
        }
    }

    /// The first share whose link has the same token.
    fn token_of(&self, row: &ShareRow) -> Option<&ShareRow>
        ensures { option_copied result ≡ find (has_token_of row.now.kind) self.now.rows }
    {
        match &row.kind {
            ShareKind::Link(token) => self.by_link(token.as_bytes()),
            ShareKind::User(_) | ShareKind::Group(_) => None,
        }
    }

    /// Changes the share of that number by a change that leaves its number, its node and its kind. It takes no memory.
    fn change<F: FnOnce(&mut ShareRow)>(&mut self, id: ShareId, change: F)
        requires calls { F.IsAlwaysCallable change }
        requires place { (row : ShareRow) (row' : ShareRow) → FnOnceReturnsAtMut F.FnOnce change row tt row' → StaysInPlace row row' }
        ensures rows { Changes share_key (id ∷ []) (λ row row'. FnOnceReturnsAtMut F.FnOnce change row tt row') self.old.rows self.new.rows }
        ensures room { self.new.room ≡ self.old.room }
    {
        self.rows.change(&ShareKey { id }, change);
    }

    /// Why the share can't be made, memory aside.
    fn check(&self, row: &ShareRow, now: Moment) -> Result<(), ShareFault>
        ensures { IsFirstFault (fault_of self.now.rows row.now now) result }
    {
        if is_self_share(row) {
            return Err(ShareFault::SelfShare);
        }
        if let Some(other) = self.again(row, now) {
            return Err(ShareFault::Already(other));
        }
        if let Some(parent) = row.parent
            && self.depth(parent) >= MAX_CHAIN
        {
            return Err(ShareFault::Chain);
        }
        if self.token_of(row).is_some() {
            return Err(ShareFault::TokenTaken);
        }
        if self.count() >= MAX_SHARES {
            return Err(ShareFault::Limit);
        }
        Ok(())
    }
}
