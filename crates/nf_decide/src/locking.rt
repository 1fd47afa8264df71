//! What a request touches, and whether another seat holds it.

ghost use Rattle.std.specs.Prelude.{◌≡◌, [], ◌∷◌, ◌++◌, None, IfOk, option_copied, option_map};
ghost use Rattle.std.specs.Option.{option_map_or};
ghost use Rattle.nf_words.specs.Prelude.{key_in_way, last_name, source_touches, target_name, target_touches, touches, transfer_touches};
ghost use Rattle.nf_words.specs.Holds.{touch_key};
ghost use Rattle.nf_words.specs.declared.answer.Mode.TheVariants.{Exclusive};
ghost use Rattle.nf_words.specs.Sound.{AreSound};
ghost use Rattle.nf_words.specs.declared.answer.Denial.TheVariants.{Locked};
ghost use Rattle.nf_decide.specs.Deciding.{slot_back, slot_of};

use nf_base::{ItemRow, NodeId};
use nf_defs::Found;
use nf_locks::{Touch, key_in_way};
use nf_tree::Tree;
use nf_view::{View, home_of, is_folder, item_row, name_back, node_at, transfer_of};
use nf_words::{Asked, Denial, LockKey, Making, Mode, Places, Spot, Transfer};
use std::alloc::{AllocError, Global};

/// `locked`: another seat holds what would be touched. It copies the key.
#[tactic(auto, using(crate::proofs::Returning::back_touched))]
pub(crate) fn locked(
    alloc: Global,
    view: &View<'_>,
    seat: u64,
    asked: &Asked<'_>,
    places: &Places,
) -> Result<Option<Denial>, AllocError>
    requires { AreSound view.now.tables }
    ensures { IfOk result (λ refusal. refusal ≡ option_map Locked (key_in_way view.now.tables.nodes seat (touches view.now.tables asked.now places.now) view.now.tickets)) }
{
    let (tree, tickets) = (view.tree(), view.tickets());
    match slot_back(alloc, view, &asked.makes)? {
        Some(key) => {
            let touches = key_touches(alloc, &key)?;
            refusal(key_in_way(tree, tickets, seat, &touches))
        }
        None => {
            let touches = touches(alloc, view, asked, places)?;
            refusal(key_in_way(tree, tickets, seat, &touches))
        }
    }
}

/// The refusal by the key that is in the way.
fn refusal(key: Option<&LockKey>) -> Result<Option<Denial>, AllocError>
    ensures { IfOk result (λ refusal. refusal ≡ option_map Locked (option_copied key.entry)) }
{
    match key {
        Some(key) => Ok(Some(Denial::Locked(key.copy()?))),
        None => Ok(None),
    }
}

/// The name that what comes back takes, if something does.
fn slot_back(alloc: Global, view: &View<'_>, makes: &Making) -> Result<Option<LockKey>, AllocError>
    requires { AreSound view.now.tables }
    ensures { IfOk result (λ key. key ≡ slot_back view.now.tables makes.now) }
{
    match makes {
        Making::Restored { item } => slot_of(alloc, view, item_row(view, *item)),
        Making::Nothing
        | Making::File { .. }
        | Making::Folder
        | Making::Moved
        | Making::Copied
        | Making::Shared
        | Making::Told
        | Making::Sent { .. }
        | Making::Refilled { .. }
        | Making::Assembled => Ok(None),
    }
}

/// The name that an item takes where it comes back.
fn slot_of(
    alloc: Global,
    view: &View<'_>,
    item: Option<&ItemRow>,
) -> Result<Option<LockKey>, AllocError>
    requires { AreSound view.now.tables }
    ensures { IfOk result (λ key. key ≡ option_map (slot_of view.now.tables) (option_copied item.entry)) }
{
    let Some(item) = item else {
        return Ok(None);
    };
    let name = name_back(alloc, view, item)?;
    Ok(Some(LockKey::Slot {
        folder: home_of(view, item),
        name,
    }))
}

/// What a request touches, where nothing comes back.
#[tactic(auto, using(crate::proofs::Returning::none_touched))]
fn touches<'a>(
    alloc: Global,
    view: &View<'_>,
    asked: &Asked<'a>,
    places: &Places,
) -> Result<Vec<Touch<'a>>, AllocError>
    requires { slot_back view.now.tables asked.now.makes ≡ None }
    ensures { IfOk result (λ list. list.items ≡ touches view.now.tables asked.now places.now) }
{
    let tree = view.tree();
    match asked.makes {
        Making::Nothing => source_touches(alloc, tree, asked.removes, node_at(places.source)),
        Making::File { .. } | Making::Folder | Making::Assembled => {
            target_touches(alloc, target_name(asked), places.target)
        }
        Making::Moved => {
            let transfer = transfer_of(tree, places);
            transfer_touches(alloc, Mode::Exclusive, target_name(asked), transfer)
        }
        Making::Copied => {
            let transfer = transfer_of(tree, places);
            transfer_touches(alloc, Mode::Shared, target_name(asked), transfer)
        }
        Making::Sent { node } => only(alloc, Touch::node(node, Mode::Shared)),
        Making::Refilled { node, .. } => only(alloc, Touch::node(node, Mode::Exclusive)),
        Making::Shared | Making::Told | Making::Restored { .. } => Ok(Vec::new(alloc)),
    }
}

/// A key that is taken.
fn key_touches<'a>(alloc: Global, key: &'a LockKey) -> Result<Vec<Touch<'a>>, AllocError>
    ensures { IfOk result (λ list. list.items ≡ touch_key key.now Exclusive ∷ []) }
{
    let touch = match key {
        LockKey::Node(node) => Touch::node(*node, Mode::Exclusive),
        LockKey::Slot { folder, name } => { Touch::slot(*folder, name.as_bytes(), Mode::Exclusive) }
    };
    only(alloc, touch)
}

/// The name under which something is put, by its bytes; none has the bytes of no name.
fn target_name<'a>(asked: &Asked<'a>) -> &'a [u8]
    ensures { result.now ≡ target_name asked.now }
{
    match asked.target {
        Some(spot) => last_name(spot),
        None => &[],
    }
}

/// The last name of a path, by its bytes.
fn last_name(spot: &Spot) -> &[u8]
    ensures { result.now ≡ last_name spot.now }
{
    match spot.path.names().last() {
        Some(name) => name.as_bytes(),
        None => &[],
    }
}

/// What is acted upon, with all under it where it doesn't stay. A file that is sent is read, and a listing touches nothing.
fn source_touches<'a>(
    alloc: Global,
    tree: &Tree,
    removes: bool,
    node: Option<NodeId>,
) -> Result<Vec<Touch<'a>>, AllocError>
    ensures { IfOk result (λ list. list.items ≡ option_map_or (source_touches tree.now.rows removes) node []) }
{
    let Some(node) = node else {
        return Ok(Vec::new(alloc));
    };
    if removes {
        only(alloc, Touch::tree(node, Mode::Exclusive))
    } else if is_folder(tree, node) {
        Ok(Vec::new(alloc))
    } else {
        only(alloc, Touch::node(node, Mode::Shared))
    }
}

/// The file that is stored over, or the name that is taken.
fn target_touches<'a>(
    alloc: Global,
    name: &'a [u8],
    place: Option<Found>,
) -> Result<Vec<Touch<'a>>, AllocError>
    ensures { IfOk result (λ list. list.items ≡ option_map_or (target_touches name.now) place []) }
{
    let Some(place) = place else {
        return Ok(Vec::new(alloc));
    };
    match place {
        Found::At(node) => only(alloc, Touch::node(node, Mode::Exclusive)),
        Found::Free { folder } => only(alloc, Touch::slot(folder, name, Mode::Exclusive)),
        Found::Missing { .. } => Ok(Vec::new(alloc)),
    }
}

/// What is moved or copied with all under it, the name that is taken, and what has to go with all under it.
fn transfer_touches<'a>(
    alloc: Global,
    mode: Mode,
    name: &'a [u8],
    transfer: Option<Transfer>,
) -> Result<Vec<Touch<'a>>, AllocError>
    ensures { IfOk result (λ list. list.items ≡ option_map_or (transfer_touches mode name.now) transfer []) }
{
    let Some(transfer) = transfer else {
        return Ok(Vec::new(alloc));
    };
    let touches = only(alloc, Touch::tree(transfer.node, mode))?;
    let touches = with(touches, Touch::slot(transfer.folder, name, Mode::Exclusive))?;
    match transfer.replaced {
        Some(node) => with(touches, Touch::tree(node, Mode::Exclusive)),
        None => Ok(touches),
    }
}

/// Some touches, and one more.
fn with<'a>(mut touches: Vec<Touch<'a>>, touch: Touch<'a>) -> Result<Vec<Touch<'a>>, AllocError>
    ensures { IfOk result (λ list. list.items ≡ touches.entry.items ++ touch.entry ∷ []) }
{
    touches.push(touch)?;
    Ok(touches)
}

fn only<'a>(alloc: Global, touch: Touch<'a>) -> Result<Vec<Touch<'a>>, AllocError>
    ensures { IfOk result (λ list. list.items ≡ touch.entry ∷ []) }
{
    Ok(vec![in alloc; touch]?)
}
