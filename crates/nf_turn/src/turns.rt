//! Waiting for a turn, and passing it on.
ghost use Rattle.std.specs.Prelude.{◌≡◌, ◌<◌, ◌≤◌, [], ◌∷◌, None, replicate};
ghost use Rattle.nf_turn.specs.Book.{AddsAlone};
ghost use Rattle.nf_turn.specs.Memory.{having_passed};
ghost use Rattle.nf_turn.specs.Agreeing.{Agrees};
ghost use Rattle.nf_turn.specs.Views.{numbers_in, memory_in, taken_in, Rests, Holds};
ghost use Rattle.nf_turn.specs.declared.view.View.TheVariants.{Idle, Holding};

use crate::book::Book;
use crate::plays::{Draw, Look, PassOn, SetBell};
use crate::seat::Place;
use crate::view::{Start, TurnRule, View};
use atomic_table::Shared;
use std::hint;
use std::sync::Wait;

/// The word with the turn number that is drawn next.
pub(crate) const DRAWN: usize = 0;

/// The word with the turn number that is served.
const SERVED: usize = 1;

/// The first bell: the word that the thread with a turn number sleeps on, 1 from when that thread sets it until it is rung.
const BELLS: usize = 2;

/// A lock has at most 64 seats, so no two that wait have the same bell.
pub(crate) const WORDS: usize = 66;

/// The one slot, which has the value.
const VALUE: usize = 0;

/// How many of those that wait look for a while whether their turn has come: the next ones. All others sleep.
const NEAR: u64 = 1;

/// How often a thread looks whether the turn is passed on, before it sleeps.
const LOOKS: u32 = 2_000;

/// What the threads share.
pub(crate) type Counter<W> = Shared<Option<W>, View<W>, Start<W>, TurnRule>;

/// The words of a table whose first turn has this number. No bell is set.
pub(crate) fn first_words(turn: u64) -> [u64; WORDS]
    ensures { result ≡ turn ∷ turn ∷ replicate 64 0 }
{
    let mut words = [0; WORDS];
    words[DRAWN] = turn;
    words[SERVED] = turn;
    words
}

/// Draws a turn number, waits until it is served, and takes the value.
pub(crate) fn wait_for_turn<W: Book, R: Wait>(
    rt: &R,
    counter: &Counter<W>,
    place: &mut Place<W>,
) -> W
    requires own { (place.old.table_id ≡ counter.now.table_id) × (counter.now.table_id.words ≡ WORDS) × (counter.now.table_id.slots ≡ 1) }
    requires idle { Rests counter.now.key.first.value place.old.me }
    ensures place { (place.new.table_id ≡ place.old.table_id) × (place.new.id ≡ place.old.id) }
    ensures turn { place.new.me ≡ (Holding result (memory_in counter.now.key.first.value place.old.me), (0, None) ∷ []) }
    ensures value { Agrees W.book (memory_in counter.now.key.first.value place.old.me) result }
{
    let mine = counter.fetch_add::<Draw>(place, DRAWN, 1);
    for _ in rt.forever() {
        let served = counter.load::<Look>(place, SERVED);
        if served == mine {
            return counter.exchange(place, VALUE, None).unwrap();
        }
        wait_for_bell(rt, counter, place, mine, served);
    }
    unreachable!()
}

/// Waits until another turn number than `served` may be served.
fn wait_for_bell<W: Book, R: Wait>(
    rt: &R,
    counter: &Counter<W>,
    place: &mut Place<W>,
    mine: u64,
    served: u64,
)
    requires own { (place.old.table_id ≡ counter.now.table_id) × (counter.now.table_id.words ≡ WORDS) }
    ensures { (place.new.table_id ≡ place.old.table_id) × (place.new.id ≡ place.old.id) × (place.new.me ≡ place.old.me) }
{
    if mine.wrapping_sub(served) <= NEAR && moves_on(counter, served) {
        return;
    }
    let bell = bell_of(mine);
    set_bell(counter, place, bell, 1);
    // Who passes on raises SERVED, and then looks at the bell. All steps are in one order: either this look sees the
    // number raised, or that one sees the bell set. A bell that is left set costs a needless wake later, and no more.
    if counter.peek(SERVED) == served {
        counter.park(rt, bell, 1);
    }
}

/// Looks for a while whether another turn number than `served` is served.
fn moves_on<W: Book>(counter: &Counter<W>, served: u64) -> bool
    requires sized { counter.now.table_id.words ≡ WORDS }
{
    for _ in 0..LOOKS {
        if counter.peek(SERVED) != served {
            return true;
        }
        hint::spin_loop();
    }
    false
}

/// Puts the value back, and lets the next turn number be served.
pub(crate) fn pass_on<W: Book>(counter: &Counter<W>, place: &mut Place<W>, value: W)
    requires own { (place.old.table_id ≡ counter.now.table_id) × (counter.now.table_id.words ≡ WORDS) × (counter.now.table_id.slots ≡ 1) }
    requires turn { Holds counter.now.key.first.value place.old.me }
    requires value { AddsAlone W.book (numbers_in place.old.me).number (taken_in counter.now.key.first.value place.old.me) value }
    ensures place { (place.new.table_id ≡ place.old.table_id) × (place.new.id ≡ place.old.id) }
    ensures idle { place.new.me ≡ (Idle (having_passed value (memory_in counter.now.key.first.value place.old.me)), []) }
{
    let empty = counter.exchange(place, VALUE, Some(value));
    let None = empty else { unreachable!() };
    let passed = counter.fetch_add::<PassOn>(place, SERVED, 1);
    ring_next(counter, place, passed.wrapping_add(1));
}

/// Rings for the turn number that is served, and for the next ones, whose threads then are awake when their turns come.
fn ring_next<W: Book>(counter: &Counter<W>, place: &mut Place<W>, served: u64)
    requires own { (place.old.table_id ≡ counter.now.table_id) × (counter.now.table_id.words ≡ WORDS) }
    ensures { (place.new.table_id ≡ place.old.table_id) × (place.new.id ≡ place.old.id) × (place.new.me ≡ place.old.me) }
{
    // A thread that draws later finds its number served already.
    let waiting = counter.peek(DRAWN).wrapping_sub(served);
    for ahead in 0..waiting.min(NEAR + 1) {
        ring(counter, place, bell_of(served.wrapping_add(ahead)));
    }
}

/// Wakes the thread that sleeps on this bell, where it is set.
fn ring<W: Book>(counter: &Counter<W>, place: &mut Place<W>, bell: usize)
    requires own { (place.old.table_id ≡ counter.now.table_id) × (counter.now.table_id.words ≡ WORDS) }
    requires bell { (BELLS ≤ bell) × (bell < WORDS) }
    ensures { (place.new.table_id ≡ place.old.table_id) × (place.new.id ≡ place.old.id) × (place.new.me ≡ place.old.me) }
{
    if counter.peek(bell) == 1 {
        set_bell(counter, place, bell, 0);
        counter.wake_one(bell);
    }
}

/// The bell of a turn number.
fn bell_of(turn: u64) -> usize
    ensures { (BELLS ≤ result) × (result < WORDS) }
{
    BELLS + (turn % 64) as usize
}

fn set_bell<W: Book>(counter: &Counter<W>, place: &mut Place<W>, bell: usize, word: u64)
    requires own { (place.old.table_id ≡ counter.now.table_id) × (counter.now.table_id.words ≡ WORDS) }
    requires bell { (BELLS ≤ bell) × (bell < WORDS) }
    ensures { (place.new.table_id ≡ place.old.table_id) × (place.new.id ≡ place.old.id) × (place.new.me ≡ place.old.me) }
{
    counter.swap::<SetBell>(place, bell, word);
}
