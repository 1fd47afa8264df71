//! The trash as callers see it.

ghost use Rattle.std.specs.Prelude.{◌≡◌, ◌+◌, ◌≤◌, ◌<◌, List, [], ◌∷◌, ◌++◌, Some, length, map, vec_capacity, IfOk, OnOk, option_copied};
ghost use Rattle.nf_base.specs.declared.rows.ItemRow.{ItemRow};
ghost use Rattle.nf_defs.specs.Prelude.{dropped, IsRising, item_key, item_row, put};
ghost use Rattle.nf_table.specs.Rows.{AreSorted, all_dropped};
ghost use Rattle.nf_trash.specs.Aged.{IsAged, aged_of, items_of, items_but, oldest_first};
ghost use Rattle.nf_trash.specs.declared.aged.Aged.{Aged};

use crate::aged::{Aged, aged_of, by_age, count_to, leave_out, of_user};
use nf_base::{ItemRow, NodeId, UserId};
use nf_defs::{drop_row, put_reserved};
use nf_table::{ItemKey, Table};
use std::alloc::{AllocError, Global};
use std::marker::Model;

/// The items of the trash, by rising node, and each user's by age. What puts one or drops one moves those behind it.
#[derive(Drop)]
pub struct Trash {
    items: Table<ItemRow>,
    aged: Vec<Aged>,
}

impl Model for Trash {
    ghost use Rattle.std.specs.Prelude.{min, vec_capacity};
    ghost use Rattle.nf_base.specs.declared.rows.ItemRow.{ItemRow};
    ghost use Rattle.nf_table.specs.Rows.{TableValue};
    ghost use Rattle.nf_trash.specs.Aged.{IsAged};

    ghost Value = { TableValue ItemRow };

    ghost view = { λ trash. record { rows = trash.items.rows; room = min trash.items.room (vec_capacity trash.aged) } };

    ghost invariant = { λ trash. IsAged trash.items.rows trash.aged.items };
}

impl Trash {
    /// The trash of these items.
    pub fn load(alloc: Global, items: Vec<ItemRow>) -> Result<Self, AllocError>
        requires { IsRising item_key items.items }
        ensures { IfOk result (λ trash. trash.rows ≡ items.items) }
    {
        let aged = by_age(alloc, &items)?;
        Ok(Trash {
            items: Table::of(items),
            aged,
        })
    }

    /// All items, by rising node.
    pub fn rows(&self) -> &[ItemRow]
        ensures rows { result.now ≡ self.now.rows }
        ensures rising { IsRising item_key self.now.rows }
    {
        self.items.rows()
    }

    /// How many items there are.
    pub fn count(&self) -> usize
        ensures count { result ≡ length self.now.rows }
        ensures room { length self.now.rows ≤ self.now.room }
    {
        self.items.count()
    }

    /// Makes room for so many items more. The one error is that there is no memory for them.
    pub fn reserve(&mut self, count: usize) -> Result<(), AllocError>
        ensures room { OnOk result (length self.new.rows + count ≤ self.new.room) }
        ensures rows { self.new.rows ≡ self.old.rows }
        ensures kept { self.old.room ≤ self.new.room }
    {
        self.items.reserve(count)?;
        self.aged.reserve(count)
    }

    /// The item of a node.
    pub fn find(&self, node: NodeId) -> Option<&ItemRow>
        ensures { option_copied result ≡ item_row self.now.rows node }
    {
        self.items.find(&ItemKey { node })
    }

    /// A user's items, from the oldest on.
    pub fn oldest_first(&self, user: UserId) -> &[Aged]
        ensures { result.now ≡ oldest_first (items_of self.now.rows user) }
    {
        of_user(&self.aged, user)
    }

    /// The items of an item's owner, from the oldest on: those that are no newer than it, and those that are. Where the item is in the
    /// trash it is the last of the first.
    pub fn around(&self, item: &ItemRow) -> (&[Aged], &[Aged])
        ensures with { result.0.now ++ aged_of item.now ∷ result.1.now ≡ oldest_first (item.now ∷ items_of self.now.rows item.now.owner) }
        ensures but { item_row self.now.rows item.now.node ≡ Some item.now → (older : List Aged) × (result.0.now ≡ older ++ aged_of item.now ∷ []) × (older ++ result.1.now ≡ oldest_first (items_but self.now.rows item.now)) }
    {
        let aged = of_user(&self.aged, item.owner);
        aged.split_at(count_to(aged, item))
    }

    /// Puts an item over the one of its node, or as a new one. It takes no memory.
    pub fn put(&mut self, item: ItemRow)
        requires { length self.old.rows < self.old.room }
        ensures rows { self.new.rows ≡ put item_key item self.old.rows }
        ensures room { self.old.room ≤ self.new.room }
        ensures count { length self.new.rows ≤ length self.old.rows + 1 }
    {
        forget(&self.items, &mut self.aged, item.node);
        put_reserved(&mut self.aged, aged_of(&item));
        self.items.put(item);
    }

    /// Takes the item of a node out, if there is one. It takes no memory.
    pub fn drop(&mut self, node: NodeId)
        ensures rows { self.new.rows ≡ dropped item_key (node ∷ []) self.old.rows }
        ensures room { self.new.room ≡ self.old.room }
    {
        forget(&self.items, &mut self.aged, node);
        self.items.drop(&ItemKey { node });
    }

    /// Takes the items of some nodes out, which are by rising number. Those of many go in one pass over all. It takes no memory.
    pub fn drop_all(&mut self, nodes: &[NodeId])
        requires sorted { AreSorted (λ node. node ∷ []) nodes.now }
        ensures rows { self.new.rows ≡ all_dropped item_key (map (λ node. node ∷ []) nodes.now) self.old.rows }
        ensures room { self.new.room ≡ self.old.room }
    {
        match nodes {
            [] => {}
            [node] => self.drop(*node),
            _ => {
                leave_out(&mut self.aged, nodes);
                self.items.drop_all(nodes);
            }
        }
    }
}

/// No longer tells how old the item of a node is, if there is one.
fn forget(items: &Table<ItemRow>, aged: &mut Vec<Aged>, node: NodeId)
    requires { IsAged items.now.rows aged.old.items }
    ensures aged { IsAged (dropped item_key (node ∷ []) items.now.rows) aged.new.items }
    ensures room { vec_capacity aged.new ≡ vec_capacity aged.old }
{
    if let Some(item) = items.find(&ItemKey { node }) {
        drop_row(aged, &aged_of(item));
    }
}
