//! What is asked about the trash of a user.

ghost use Rattle.std.specs.Prelude.{◌≡◌, [], ◌∷◌, ◌++◌, None, Some, filter_map, option_copied, IfOk, IfSome, OnOk};
ghost use Rattle.std.specs.Option.{option_map_or};
ghost use Rattle.nf_defs.specs.Prelude.{item_row};
ghost use Rattle.nf_words.specs.Prelude.{AreSound, item_dropped, item_line, item_lines, item_restored, nothing_done, trash_done};
ghost use Rattle.nf_words.specs.declared.answer.Allowed.TheVariants as allowed;
ghost use Rattle.nf_words.specs.declared.answer.Report.TheVariants as report;
ghost use Rattle.nf_decide.specs.Deciding.{asking_of};
ghost use Rattle.nf_decide.specs.Listed.{line_at};

use crate::deciding::Call;
use crate::items::own_item;
use nf_base::{Changes, ItemRow, Moment, NodeId, UserId};
use nf_deeds::{emptied, item_dropped, item_restored, nothing_done, trash_of};
use nf_reach::Asker;
use nf_retention::{Trashed, newest_first};
use nf_view::{View, item_row};
use nf_words::{Allowed, ItemLine, Items, Report, TrashAsk};
use std::alloc::{AllocError, Global};

impl<'a> Call<'a> {
    /// What is done and told of what is asked about the caller's trash.
    #[tactic(auto, using(crate::proofs::Askers::user_asks))]
    pub(crate) fn trash_done(
        &self,
        alloc: Global,
        asker: &Asker<'_>,
        ask: &TrashAsk,
    ) -> Result<Allowed, AllocError>
        requires asker { asker.now ≡ asking_of self.now }
        requires sound { AreSound self.now.state.tables }
        ensures { IfOk result (λ allowed. allowed ≡ trash_done self.entry.now ask.now) }
    {
        let view = &self.view;
        let user = asker.user();
        match ask {
            TrashAsk::List(_) => listed(alloc, view, user),
            TrashAsk::Drop { item, .. } => {
                dropped(alloc, view, self.now, own_item(view, user, *item))
            }
            TrashAsk::Empty(_) => emptied(alloc, view, user),
            TrashAsk::Restore { item, .. } => {
                restored(alloc, view, self.now, own_item(view, user, *item))
            }
        }
    }
}

// ---- what is done

/// An item, if there is one, goes for good.
fn dropped(
    alloc: Global,
    view: &View<'_>,
    moment: Moment,
    item: Option<&ItemRow>,
) -> Result<Allowed, AllocError>
    requires sound { AreSound view.now.tables }
    requires there { IfSome item (λ item. item_row view.now.tables.items item.now.node ≡ Some item.now) }
    ensures { IfOk result (λ allowed. allowed ≡ option_map_or (item_dropped view.now.tables moment) (option_copied item.entry) nothing_done) }
{
    match item {
        Some(item) => item_dropped(alloc, view, moment, item),
        None => Ok(nothing_done(alloc)),
    }
}

/// An item, if there is one, comes back.
fn restored(
    alloc: Global,
    view: &View<'_>,
    moment: Moment,
    item: Option<&ItemRow>,
) -> Result<Allowed, AllocError>
    requires sound { AreSound view.now.tables }
    requires there { IfSome item (λ item. item_row view.now.tables.items item.now.node ≡ Some item.now) }
    ensures { IfOk result (λ allowed. allowed ≡ option_map_or (item_restored view.now.tables moment) (option_copied item.entry) nothing_done) }
{
    match item {
        Some(item) => item_restored(alloc, view, moment, item),
        None => Ok(nothing_done(alloc)),
    }
}

// ---- what is told

/// The items of a user are told.
fn listed(alloc: Global, view: &View<'_>, user: UserId) -> Result<Allowed, AllocError>
    requires { AreSound view.now.tables }
    ensures { IfOk result (λ act. act ≡ allowed.Change [] None (report.Items (item_lines view.now.tables user))) }
{
    let lines = item_lines(alloc, view, user)?;
    Ok(Allowed::Change {
        changes: Changes::new(alloc),
        blob: None,
        report: Report::Items(Items::new(lines)),
    })
}

/// Their lines, newest first.
fn item_lines(alloc: Global, view: &View<'_>, user: UserId) -> Result<Vec<ItemLine>, AllocError>
    requires { AreSound view.now.tables }
    ensures { IfOk result (λ lines. lines.items ≡ item_lines view.now.tables user) }
{
    let sorted = newest_first(trash_of(alloc, view, user)?)?;
    lines_of(alloc, view, &sorted)
}

/// The lines of the items of some nodes.
fn lines_of(alloc: Global, view: &View<'_>, sorted: &[Trashed]) -> Result<Vec<ItemLine>, AllocError>
    requires { AreSound view.now.tables }
    ensures { IfOk result (λ lines. lines.items ≡ filter_map (λ one. line_at view.now.tables one.node) sorted.now) }
{
    let mut lines = Vec::new(alloc);
    for one in sorted {
        push_line(view, one.node, &mut lines)?;
    }
    Ok(lines)
}

/// Puts the line of the item of a node at the end, where both are there.
fn push_line(view: &View<'_>, node: NodeId, lines: &mut Vec<ItemLine>) -> Result<(), AllocError>
    requires { AreSound view.now.tables }
    ensures { OnOk result (lines.new.items ≡ lines.old.items ++ filter_map (line_at view.now.tables) (node ∷ [])) }
{
    let Some(item) = item_row(view, node) else {
        return Ok(());
    };
    if let Some(line) = item_line(view, item)? {
        lines.push(line)?;
    }
    Ok(())
}

/// The line of an item whose node is there.
fn item_line(view: &View<'_>, item: &ItemRow) -> Result<Option<ItemLine>, AllocError>
    requires { AreSound view.now.tables }
    ensures { IfOk result (λ line. line ≡ item_line view.now.tables item.now) }
{
    let Some(row) = view.tree().node(item.node) else {
        return Ok(None);
    };
    Ok(Some(ItemLine {
        at: item.at,
        id: item.node,
        kind: row.kind,
        name: item.name.copy()?,
        size: view.size(item.node),
    }))
}
