//! What each step on the table tells.
ghost use Rattle.nf_turn.specs.Memory.{longer};
ghost use Rattle.nf_turn.specs.Steps.{Draws, Looks, PassesOn, SetsBell, Counts, after_split, split_off, after_join};
ghost use Rattle.nf_turn.specs.declared.view.View.TheVariants.{Spent};

use crate::book::Book;
use crate::view::View;
use atomic_table::{Join, Play, Split};

/// Draws a turn number.
pub(crate) struct Draw;

impl<W> Play<Option<W>, View<W>> for Draw {
    ghost then = { Draws };
}

/// Looks which turn number is served, and takes the value where it is the seat's own.
pub(crate) struct Look;

impl<W: Book> Play<Option<W>, View<W>> for Look {
    ghost then = { Looks W.book };
}

/// Puts the value back, and lets the next number be served.
pub(crate) struct PassOn;

impl<W> Play<Option<W>, View<W>> for PassOn {
    ghost then = { PassesOn };
}

/// Sets a bell, which changes nothing for the seat.
pub(crate) struct SetBell;

impl<W> Play<Option<W>, View<W>> for SetBell {
    ghost then = { SetsBell };
}

/// Changes nothing, and tells what the rule says of an idle seat.
pub(crate) struct Count;

impl<W: Book> Play<Option<W>, View<W>> for Count {
    ghost then = { Counts W.book };
}

pub(crate) struct SplitOff;

impl<W> Split<View<W>> for SplitOff {
    ghost left = { after_split };

    ghost right = { split_off };
}

pub(crate) struct JoinIn;

impl<W: Book> Join<View<W>> for JoinIn {
    ghost both = { after_join (longer W.book) };

    ghost spent = { Spent };
}
