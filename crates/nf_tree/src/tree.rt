//! The tree as callers see it.

ghost use Rattle.std.specs.Prelude.{◌≡◌, ◌==◌, ◌<◌, ◌≤◌, ◌+◌, ◌*◌, ◌↔◌, All, IfOk, OnOk, IsSome, true, Some, map, [], ◌∷◌, ◌++◌, Err, length, option_copied, vec_len, vec_capacity};
ghost use Rattle.std.specs.List.{position};
ghost use Rattle.nf_base.specs.declared.limits.TheConstants.{MAX_PIECES};
ghost use Rattle.nf_base.specs.declared.rows.Row.TheVariants.{Node};
ghost use Rattle.nf_charge.specs.Sums.{LeadUp, bytes_under};
ghost use Rattle.nf_charge.specs.Totals.{bytes_owned};
ghost use Rattle.nf_defs.specs.Tree.{node_row, child_of, is_folder, is_file, is_leaf, content_of, piece_count, is_under, depth, found_from, children_of, walk_of, walk_within, is_rooted, with_node, filled, relinked, trashed, without_all, without_under};
ghost use Rattle.nf_tree.specs.Order.{AreRisingNodes, placed};

use crate::{nodes, order, removal};
use nf_base::{
    Content, MAX_DEPTH, MAX_NODES, Moment, Name, NodeId, NodeRow, Place, Row, RowList, UserId,
};
use nf_charge::rows::index_of;
use nf_charge::{Sums, Totals, bytes_owned};
use nf_defs::Found;
use std::alloc::{AllocError, Global};
use std::marker::Model;

/// Why room can't be made.
#[derive(Clone, Copy, PartialEq, Eq)]
pub enum TreeFault {
    /// There would be more than `MAX_NODES` nodes.
    Limit,
    /// There is no memory for it.
    Memory,
}

impl From<AllocError> for TreeFault {
    ghost use Rattle.nf_tree.specs.declared.tree.TreeFault.TheVariants.{Memory};

    ghost from_gives = { λ _ fault. fault ≡ Memory };

    fn from(_: AllocError) -> Self {
        TreeFault::Memory
    }
}

/// For how many more there is to be room, so that many small calls cost little: as many again, where they may be.
fn growth(many: usize, count: usize) -> usize
    requires { many + count ≤ MAX_NODES }
    ensures enough { count ≤ result }
    ensures few { many + result ≤ MAX_NODES }
{
    if many <= count {
        count
    } else if many <= MAX_NODES - many {
        many
    } else {
        MAX_NODES - many
    }
}

/// All nodes of the site, each of which leads up to a row in no folder. What is found is found in logarithmic time.
#[derive(Drop)]
pub struct Tree {
    /// By rising number.
    rows: Vec<NodeRow>,
    /// The places of the rows, by folder, name and number.
    order: Vec<usize>,
    /// Room in which a purge notes where each row goes.
    fates: Vec<usize>,
    /// How many bytes what is under each row's node has.
    sums: Sums,
    /// How many bytes all nodes of each owner have.
    totals: Totals,
    /// How many pieces the rows have.
    pieces: usize,
    /// How many rows fit without more memory.
    room: usize,
}

impl Model for Tree {
    ghost use Rattle.std.specs.Prelude.{vec_capacity};
    ghost use Rattle.nf_charge.specs.Sums.{AreSums, LeadUp};
    ghost use Rattle.nf_charge.specs.Totals.{AreTotals};
    ghost use Rattle.nf_tree.specs.Held.{HaveRoom, Held, IsTree};

    ghost Value = { Held };

    ghost view = { λ tree. record { rows = tree.rows.items; room = tree.room } };

    ghost invariant = { λ tree. IsTree tree.rows.items tree.order.items tree.pieces tree.room × HaveRoom tree.room (vec_capacity tree.rows) (vec_capacity tree.order) (vec_capacity tree.fates) tree.sums.room × LeadUp tree.rows.items × AreSums tree.rows.items tree.sums.sums × AreTotals tree.rows.items tree.totals };
}

impl Tree {
    ghost use Rattle.nf_tree.specs.declared.tree.TreeFault.TheVariants.{Limit};

    pub fn new(alloc: Global) -> Self
        ensures { result ≡ record { rows = []; room = 0 } }
    {
        Tree {
            rows: Vec::new(alloc),
            order: Vec::new(alloc),
            fates: Vec::new(alloc),
            sums: Sums::new(alloc),
            totals: Totals::new(alloc),
            pieces: 0,
            room: 0,
        }
    }

    /// The tree of these rows.
    pub fn load(alloc: Global, rows: Vec<NodeRow>) -> Result<Self, AllocError>
        requires rising { AreRisingNodes rows.items }
        requires few { length rows.items ≤ MAX_NODES }
        requires leads { LeadUp rows.items }
        ensures rows { IfOk result (λ tree. tree.rows ≡ rows.items) }
        ensures room { IfOk result (λ tree. length tree.rows ≤ tree.room) }
    {
        let room = rows.len();
        let pieces = nodes::piece_count(&rows);
        let order = order::of(alloc, &rows)?;
        let mut fates = Vec::new(alloc);
        fates.reserve(room)?;
        let sums = Sums::of(alloc, &rows)?;
        let totals = Totals::of(alloc, &rows)?;
        Ok(Tree {
            rows,
            order,
            fates,
            sums,
            totals,
            pieces,
            room,
        })
    }

    /// Makes room for so many more nodes.
    pub fn reserve(&mut self, count: usize) -> Result<(), TreeFault>
        ensures limit { (result ≡ Err Limit) ↔ (MAX_NODES < length self.old.rows + count) }
        ensures rows { self.new.rows ≡ self.old.rows }
        ensures room { OnOk result (length self.new.rows + count ≤ self.new.room) }
        ensures grown { self.old.room ≤ self.new.room }
    {
        let many = self.rows.len();
        if MAX_NODES - many < count {
            return Err(TreeFault::Limit);
        }
        if self.room < many + count {
            let more = growth(many, count);
            self.rows.reserve(more)?;
            self.order.reserve(more)?;
            self.fates.clear();
            self.fates.reserve(many + more)?;
            self.sums.reserve(many + more)?;
            self.totals.reserve(more)?;
            self.room = many + more;
        }
        Ok(())
    }

    /// Tells callers what every tree keeps; it does nothing.
    pub fn keeps(&self)
        ensures { length self.now.rows ≤ self.now.room }
    {
        let _ = &self.room;
    }

    /// How many nodes there are.
    pub fn count(&self) -> usize
        ensures count { result ≡ length self.now.rows }
        ensures few { result ≤ MAX_NODES }
    {
        let _ = &self.room;
        self.rows.len()
    }

    /// How many pieces the contents have, with repeats.
    pub fn pieces(&self) -> usize
        ensures count { result ≡ piece_count self.now.rows }
        ensures few { result ≤ MAX_NODES * MAX_PIECES }
    {
        self.pieces
    }

    /// How many bytes what is under a node has together; in a running sum.
    pub fn bytes_under(&self, node: NodeId) -> u128
        ensures { result ≡ bytes_under self.now.rows node }
    {
        match index_of(&self.rows, node) {
            Some(at) => self.sums.get(at),
            None => 0,
        }
    }

    /// How many bytes all nodes of an owner have together, in the trash or not; in a running total.
    pub fn bytes_of(&self, owner: UserId) -> u128
        ensures { result ≡ bytes_owned self.now.rows owner }
    {
        match self.totals.get(owner) {
            Some(bytes) => bytes,
            // There was no memory for a total once, so each row is looked at.
            None => bytes_owned(&self.rows, owner),
        }
    }

    /// The nodes' rows, by rising number.
    pub fn nodes(&self) -> &[NodeRow]
        ensures rows { result.now ≡ self.now.rows }
        ensures rising { AreRisingNodes self.now.rows }
        ensures few { length result.now ≤ MAX_NODES }
    {
        &self.rows
    }

    /// A copy of the rows, by rising number.
    pub fn rows(&self, alloc: Global) -> Result<RowList, AllocError>
        ensures { IfOk result (λ rows. rows ≡ map Node self.now.rows) }
    {
        let mut rows = RowList::new(alloc);
        for row in &self.rows {
            rows.push(Row::Node(nodes::copy_row(row)?))?;
        }
        Ok(rows)
    }

    pub fn node(&self, id: NodeId) -> Option<&NodeRow>
        ensures { option_copied result ≡ node_row self.now.rows id }
    {
        nodes::node_row(&self.rows, id)
    }

    fn is_folder(&self, node: NodeId) -> bool
        ensures { result ≡ is_folder self.now.rows node }
    {
        nodes::is_folder(&self.rows, node)
    }

    /// The folder's child of that name.
    pub fn child(&self, folder: NodeId, name: &Name) -> Option<NodeId>
        ensures { result ≡ child_of self.now.rows folder name.now }
    {
        order::child_of(&self.rows, &self.order, folder, name.as_bytes())
    }

    /// Whether the node is the top, or under it.
    pub fn under(&self, node: NodeId, top: NodeId) -> bool
        ensures { result ≡ is_under self.now.rows node top }
    {
        nodes::is_under(&self.rows, node, top)
    }

    /// Whether no node is in it, so that only itself is under it.
    pub fn is_leaf(&self, node: NodeId) -> bool
        ensures { result ≡ is_leaf self.now.rows node }
    {
        order::is_leaf(&self.rows, &self.order, node)
    }

    /// Whether the node is a root, or under one.
    pub fn present(&self, node: NodeId) -> bool
        ensures { result ≡ is_rooted self.now.rows node }
    {
        nodes::is_rooted(&self.rows, node)
    }

    /// How many folders are above a node, `MAX_DEPTH` at most.
    pub fn depth(&self, node: NodeId) -> u32
        ensures depth { result ≡ depth self.now.rows node }
        ensures few { result ≤ MAX_DEPTH }
    {
        nodes::depth(&self.rows, node)
    }

    /// Where the names lead from a node.
    pub fn find(&self, from: NodeId, names: &[Name]) -> Found
        ensures { result ≡ found_from self.now.rows 0 from names.now }
    {
        let mut at = from;
        for (depth, name) in names.iter().enumerate() {
            if !self.is_folder(at) {
                return Found::Missing { depth };
            }
            at = match self.child(at, name) {
                Some(child) => child,
                None if depth + 1 == names.len() => return Found::Free { folder: at },
                None => return Found::Missing { depth },
            };
        }
        Found::At(at)
    }

    /// The children of a folder, by name.
    pub fn children(&self, alloc: Global, folder: NodeId) -> Result<Vec<NodeId>, AllocError>
        ensures { IfOk result (λ children. children.items ≡ children_of self.now.rows folder) }
    {
        order::children_of(alloc, &self.rows, &self.order, folder)
    }

    /// The nodes under a top, itself first: each folder before what is in it, children by name.
    pub fn subtree(&self, alloc: Global, top: NodeId) -> Result<Vec<NodeId>, AllocError>
        ensures { IfOk result (λ nodes. nodes.items ≡ walk_of self.now.rows top) }
    {
        let mut nodes = Vec::new(alloc);
        self.walk(alloc, MAX_DEPTH, top, &mut nodes)?;
        Ok(nodes)
    }

    /// Puts a node at the end, and what is so many folders under it at most.
    fn walk(
        &self,
        alloc: Global,
        down: u32,
        node: NodeId,
        nodes: &mut Vec<NodeId>,
    ) -> Result<(), AllocError>
        ensures { OnOk result (nodes.new.items ≡ nodes.old.items ++ walk_within down self.now.rows node) }
    {
        nodes.push(node)?;
        if down > 0 {
            let children = self.children(alloc, node)?;
            for child in &children {
                self.walk(alloc, down - 1, *child, nodes)?;
            }
        }
        Ok(())
    }

    /// Puts a new node in. It takes no memory, and nor does any other change.
    pub fn add(&mut self, row: NodeRow)
        requires room { length self.old.rows < self.old.room }
        requires newest { All (λ (older : NodeRow). older.id < row.id) self.old.rows }
        requires leads { LeadUp (self.old.rows ++ row ∷ []) }
        ensures { self.new ≡ record self.old { rows = self.old.rows ++ row ∷ [] } }
    {
        let last = self.rows.len();
        self.pieces += nodes::pieces_of(&row);
        self.totals.add(row.owner, row.content.size());
        self.rows.push_reserved(row);
        order::put(&self.rows, &mut self.order, last);
        self.sums.push(&self.rows);
    }

    /// Gives a node another content, which became current at the moment. The old one is answered.
    pub fn replace(&mut self, file: NodeId, content: Content, changed: Moment) -> Content
        requires { is_file self.old.rows file ≡ true }
        ensures rows { self.new ≡ record self.old { rows = with_node self.old.rows file (filled content changed) } }
        ensures content { result ≡ content_of self.old.rows file }
    {
        let at = self.place_of(file);
        let more = content.pieces().len();
        let bytes = content.size();
        self.sums.change(&self.rows, at, bytes);
        let row = &self.rows[at];
        self.totals.replace(row.owner, row.content.size(), bytes);
        let old = nodes::refill(&mut self.rows[at], content, changed);
        self.pieces = self.pieces - old.pieces().len() + more;
        old
    }

    /// Moves a node into that folder, under that name.
    pub fn relink(&mut self, node: NodeId, folder: NodeId, name: Name)
        requires there { IsSome (node_row self.old.rows node) }
        requires leads { LeadUp (with_node self.old.rows node (relinked folder name)) }
        ensures { self.new ≡ record self.old { rows = with_node self.old.rows node (relinked folder name) } }
    {
        self.place(node, Place::Inside(folder), Some(name))
    }

    /// Makes a node the top of an item in the trash.
    pub fn detach(&mut self, node: NodeId)
        requires { IsSome (node_row self.old.rows node) }
        ensures { self.new ≡ record self.old { rows = with_node self.old.rows node trashed } }
    {
        let _ = &self.room;
        self.place(node, Place::Trash, None)
    }

    /// Puts a node elsewhere, under another name where one is given.
    fn place(&mut self, node: NodeId, place: Place, name: Option<Name>)
        requires there { IsSome (node_row self.old.rows node) }
        requires leads { LeadUp (with_node self.old.rows node (placed place name)) }
        ensures { self.new ≡ record self.old { rows = with_node self.old.rows node (placed place name) } }
    {
        let at = self.place_of(node);
        self.sums.leave(&self.rows, at);
        order::take(&self.rows, &mut self.order, at);
        nodes::place(&mut self.rows[at], place, name);
        order::put(&self.rows, &mut self.order, at);
        self.sums.enter(&self.rows, at);
    }

    /// Moves a node out of the trash into that folder, under that name.
    pub fn attach(&mut self, node: NodeId, folder: NodeId, name: Name)
        requires there { IsSome (node_row self.old.rows node) }
        requires leads { LeadUp (with_node self.old.rows node (relinked folder name)) }
        ensures { self.new ≡ record self.old { rows = with_node self.old.rows node (relinked folder name) } }
    {
        self.relink(node, folder, name)
    }

    /// Takes out a node and all under it, for good.
    pub fn purge(&mut self, node: NodeId)
        ensures { self.new ≡ record self.old { rows = without_under self.old.rows node } }
    {
        if self.is_leaf(node) {
            self.purge_leaf(node);
        } else {
            self.purge_each(&[node]);
        }
    }

    /// Takes out some nodes, each with all under it, in one pass over the rows. It takes no memory.
    pub fn purge_all(&mut self, tops: &[NodeId])
        ensures { self.new ≡ record self.old { rows = without_all self.old.rows tops.now } }
    {
        match tops {
            [] => {}
            [node] => self.purge(*node),
            _ => self.purge_each(tops),
        }
    }

    /// Takes out a node that nothing is in.
    fn purge_leaf(&mut self, leaf: NodeId)
        requires { is_leaf self.old.rows leaf ≡ true }
        ensures { self.new ≡ record self.old { rows = without_under self.old.rows leaf } }
    {
        if let Some(at) = index_of(&self.rows, leaf) {
            self.sums.leave(&self.rows, at);
            order::take(&self.rows, &mut self.order, at);
            order::lower(&mut self.order, at);
            let row = self.rows.remove(at);
            self.pieces -= nodes::pieces_of(&row);
            self.totals.take(row.owner, row.content.size());
            self.sums.remove(at);
        }
    }

    /// Takes out some nodes, whatever is in them.
    fn purge_each(&mut self, tops: &[NodeId])
        ensures { self.new ≡ record self.old { rows = without_all self.old.rows tops.now } }
    {
        self.pieces -= removal::drop_under(
            &mut self.rows,
            &self.order,
            &mut self.fates,
            &mut self.sums,
            &mut self.totals,
            tops,
        );
        order::renumber(&mut self.order, &self.fates);
    }

    fn place_of(&self, node: NodeId) -> usize
        requires { IsSome (node_row self.now.rows node) }
        ensures { Some result ≡ position (λ row. row.id == node) self.now.rows }
    {
        index_of(&self.rows, node).unwrap()
    }
}
