//! What is in the way of some touches: the keys that other seats hold.

ghost use Rattle.std.specs.Prelude.{◌≡◌, filter, option_copied};
ghost use Rattle.std.specs.List.{list_any};
ghost use Rattle.nf_words.specs.Holds.{blocks, clashes, key_in_way, least};
ghost use Rattle.nf_locks.specs.Touches.{sooner};

use crate::Touch;
use nf_tree::Tree;
use nf_words::{Hold, LockKey, Ticket};

/// The key that is in the way of some touches of a seat: of those that other seats hold and that clash, the least seat's. It takes no
/// memory.
pub fn key_in_way<'a>(
    tree: &Tree,
    tickets: &'a [Ticket],
    seat: u64,
    touches: &[Touch<'_>],
) -> Option<&'a LockKey>
    ensures { option_copied result ≡ key_in_way tree.now.rows seat touches.now tickets.now }
{
    let ticket = least_in_way(tree, tickets, seat, touches)?;
    let hold = ticket.hold.as_ref()?;
    Some(&hold.key)
}

/// Of the tickets that are in the way that of the least seat.
fn least_in_way<'a>(
    tree: &Tree,
    tickets: &'a [Ticket],
    seat: u64,
    touches: &[Touch<'_>],
) -> Option<&'a Ticket>
    ensures { option_copied result ≡ least (filter (blocks tree.now.rows seat touches.now) tickets.now) }
{
    let mut found = None;
    for ticket in tickets {
        if blocks(tree, seat, touches, ticket) {
            found = Some(sooner(found, ticket));
        }
    }
    found
}

/// Of the ticket that was found, if there is one, and a later one that of the lesser seat.
fn sooner<'a>(found: Option<&'a Ticket>, ticket: &'a Ticket) -> &'a Ticket
    ensures { result.now ≡ sooner (option_copied found.entry) ticket.now }
{
    match found {
        Some(found) if found.seat <= ticket.seat => found,
        Some(_) | None => ticket,
    }
}

/// Whether the hold of another seat's ticket clashes with a touch.
fn blocks(tree: &Tree, seat: u64, touches: &[Touch<'_>], ticket: &Ticket) -> bool
    ensures { result ≡ blocks tree.now.rows seat touches.now ticket.now }
{
    match &ticket.hold {
        Some(hold) => ticket.seat != seat && clashes(tree, touches, hold),
        None => false,
    }
}

/// Whether a hold clashes with one of some touches.
fn clashes(tree: &Tree, touches: &[Touch<'_>], hold: &Hold) -> bool
    ensures { result ≡ list_any (λ touch. clashes tree.now.rows touch hold.now) touches.now }
{
    touches.iter().any(|touch| touch.clashes(tree, hold))
}
