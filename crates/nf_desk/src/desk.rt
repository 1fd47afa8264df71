//! The site and its keeper, at which seats take their turns.

ghost use Rattle.std.specs.Prelude.{◌≡◌, ◌<◌, ◌≤◌, length, IfErr, IfOk, None, Some};
ghost use Rattle.sha2.specs.Sha256.{sha256};
ghost use Rattle.nf_desk.specs.Desk.{IsDesk, TakesTurn, book_at, meanings, shown};
ghost use Rattle.nf_desk.specs.Opened.{AsksOnce, CountsFault, IsFault, MayBegin, Opens};
ghost use Rattle.nf_desk.specs.Pieces.{Reads};
ghost use Rattle.nf_desk.specs.Stepping.{IsEmpty};
ghost use Rattle.nf_desk.specs.Sweeping.{Sweeps, SweepsSeen};
ghost use Rattle.nf_rules.specs.Ruled.{AreRuled};
ghost use Rattle.nf_rules.specs.Rules.{AreUnbroken};
ghost use Rattle.nf_session.specs.Book.{Begins, EndsBody, EndsEmpty, held};
ghost use Rattle.nf_site.specs.Kept.{IsHistory};
ghost use Rattle.nf_turn.specs.Book.{IsFresh};
ghost use Rattle.nf_words.specs.Prelude.{IsSound, MayEnd, MayWant};
ghost use Rattle.nf_words.specs.declared.answer.Goal.TheVariants.{Serve};
ghost use Rattle.nf_words.specs.declared.history.Outcome.TheVariants.{Body};

use crate::first::{Opening, Unopened};
use crate::loading::site_over;
use crate::piece::piece_at;
use crate::stepping::{begin, finish, store};
use crate::strikes::{no_strikes, strike};
use crate::sweeping::{Swept, sweep};
use nf_base::{Content, Digest, MAX_SEATS, Moment, RowList};
use nf_keeper::{KeepFault, Keeper};
use nf_site::Site;
use nf_turn::Book;
use nf_words::{Answer, Denial, Entry, Outcome, Request, Words};
use std::alloc::Global;
use std::marker::Model;
use std::snapshot::Snapshot;

/// A site, the keeper of its rows and of the bytes of its blobs, and of each seat how often the keeper failed it at what makes no entry.
#[derive(Drop)]
pub struct Desk<K: Keeper + Drop> {
    alloc: Global,
    site: Site,
    keeper: K,
    strikes: [u64; MAX_SEATS],
    start: Snapshot<K>,
}

impl<K: Keeper + Drop> Model for Desk<K> {
    ghost use Rattle.nf_desk.specs.Desk.{IsDesk, Served, tale};

    ghost Value = { Served K };

    ghost view = { λ desk. record { site = desk.site; keeper = desk.keeper; strikes = desk.strikes; start = desk.start } };

    ghost invariant = { λ desk. IsDesk record {
      site = desk.site.kept;
      told = K.told desk.keeper;
      faults = K.faults desk.keeper;
      strikes = desk.strikes;
      start = tale K.Keeper desk.start.value;
    } };
}

impl<K: Keeper + Drop> Book for Desk<K> {
    type Entry = Entry;

    type Opening = (RowList, Snapshot<K>);

    ghost book = { meanings K.Keeper };
}

impl<K: Keeper + Drop> Desk<K> {
    /// A desk over the keeper's rows, or over the first ones where it has none, which it then keeps.
    pub fn open(alloc: Global, keeper: K, opening: Opening) -> Result<Self, Unopened<K>>
        requires first { MayBegin opening }
        ensures rules { IfOk result (λ desk. AreUnbroken desk.site.kept.opening) }
        ensures ok { IfOk result (λ desk. Opens opening (K.told keeper) (K.told desk.keeper) desk.site.kept) }
        ensures uncounted { IfOk result (λ desk. K.faults desk.keeper ≡ K.faults keeper) }
        ensures start { IfOk result (λ desk. desk.start.value ≡ desk.keeper) }
        // No seat has done anything yet.
        ensures fresh { IfOk result (λ desk. IsFresh (meanings K.Keeper) desk) }
        ensures err { IfErr result (λ unopened. IsFault opening (K.told keeper) unopened.fault) }
        ensures same { IfErr result (λ unopened. K.told unopened.keeper ≡ K.told keeper) }
        ensures counted { IfErr result (λ unopened. CountsFault (K.faults keeper) (K.faults unopened.keeper) unopened.fault) }
        ensures asked { IfOk result (λ desk. AsksOnce (K.told keeper) (K.calls keeper) (K.calls desk.keeper) None) }
        ensures in_vain { IfErr result (λ unopened. AsksOnce (K.told keeper) (K.calls keeper) (K.calls unopened.keeper) (Some unopened.fault)) }
    {
        let mut keeper = keeper;
        match site_over(alloc, &mut keeper, opening) {
            Ok(site) => {
                let _ = site.history();
                let start = Snapshot::of(&keeper);
                Ok(Desk {
                    alloc,
                    site,
                    keeper,
                    strikes: no_strikes(),
                    start,
                })
            }
            Err(fault) => Err(Unopened { fault, keeper }),
        }
    }

    /// Asks for something in the name of a seat, at a reading of the clock and with two words of chance.
    pub fn begin(&mut self, seat: u64, now: Moment, words: Words, request: Request) -> Answer
        requires idle { held (book_at seat (shown K.Keeper self.old)) ≡ None }
        requires wants { MayWant request }
        ensures begins { Begins (book_at seat (shown K.Keeper self.old)) (book_at seat (shown K.Keeper self.new)) now words request result }
        ensures turn { TakesTurn K.Keeper seat self.old self.new }
    {
        let _ = self.site.history();
        let answer = begin(
            self.alloc,
            &mut self.site,
            &mut self.keeper,
            seat,
            now,
            words,
            request,
        );
        let _ = self.site.history();
        answer
    }

    /// Has go what the trashes don't hold any more, at a reading of the clock, and then the blobs that no row and no granted GET names.
    /// Where the keeper doesn't drop them, the step stands as it was answered.
    pub fn sweep(&mut self, seat: u64, now: Moment) -> Result<Swept, Denial>
        requires seat { (0 < seat) × (seat ≤ MAX_SEATS) }
        requires idle { held (book_at seat (shown K.Keeper self.old)) ≡ None }
        ensures sweeps { Sweeps seat (shown K.Keeper self.old) (shown K.Keeper self.new) now result }
        ensures seen { SweepsSeen (book_at seat (shown K.Keeper self.old)) (book_at seat (shown K.Keeper self.new)) now result }
        ensures turn { TakesTurn K.Keeper seat self.old self.new }
    {
        let _ = self.site.history();
        let result = sweep(
            self.alloc,
            &mut self.site,
            &mut self.keeper,
            &mut self.strikes,
            seat,
            now,
        );
        let _ = self.site.history();
        result
    }

    /// Reads a piece of what the seat was granted. Whether it is whole isn't tested here, since that takes its time.
    pub fn read(
        &mut self,
        seat: u64,
        content: &Content,
        index: usize,
    ) -> Result<Option<Vec<u8>>, KeepFault>
        requires seat { (0 < seat) × (seat ≤ MAX_SEATS) }
        requires granted { held (book_at seat (shown K.Keeper self.old)) ≡ Some (Serve content.now) }
        requires index { index < length content.now }
        ensures reads { Reads seat (shown K.Keeper self.old) (shown K.Keeper self.new) content.now index result }
        ensures turn { TakesTurn K.Keeper seat self.old self.new }
    {
        let _ = self.site.history();
        let read = self.keeper.blob(piece_at(content, index).blob);
        strike(&mut self.strikes, seat, &read);
        read
    }

    /// Ends what was granted to the seat, where it brings nothing. It takes no memory, and the keeper has nothing to do.
    pub fn finish(&mut self, seat: u64, now: Moment, outcome: Outcome) -> Answer
        requires empty { IsEmpty outcome }
        requires granted { MayEnd (held (book_at seat (shown K.Keeper self.old))) outcome }
        ensures ends { EndsEmpty (book_at seat (shown K.Keeper self.old)) (book_at seat (shown K.Keeper self.new)) now outcome result }
        ensures turn { TakesTurn K.Keeper seat self.old self.new }
    {
        let _ = self.site.history();
        let answer = finish(self.alloc, &mut self.site, seat, now, outcome);
        let _ = self.site.history();
        answer
    }

    /// Ends the PUT that was granted to the seat, with its body and that body's digest.
    pub fn store(&mut self, seat: u64, now: Moment, digest: Digest, body: &[u8]) -> Answer
        requires digest { digest ≡ sha256 body.now }
        requires granted { MayEnd (held (book_at seat (shown K.Keeper self.old))) (Body digest (length body.now)) }
        ensures ends { EndsBody (book_at seat (shown K.Keeper self.old)) (book_at seat (shown K.Keeper self.new)) now body.now result }
        ensures turn { TakesTurn K.Keeper seat self.old self.new }
    {
        let _ = self.site.history();
        let answer = store(
            self.alloc,
            &mut self.site,
            &mut self.keeper,
            seat,
            now,
            digest,
            body,
        );
        let _ = self.site.history();
        answer
    }

    /// The site and its keeper. The history is legal, the state is sound, each failure of the keeper is counted, and what it tells is true
    /// of the site.
    pub fn into_parts(self) -> (Site, K)
        ensures site { result.0 ≡ self.site }
        ensures keeper { result.1 ≡ self.keeper }
        ensures history { IsHistory self.site.kept }
        ensures sound { IsSound self.site.kept.state }
        ensures ruled { AreRuled self.site.kept.state.tables }
        ensures desk { IsDesk (shown K.Keeper self) }
    {
        let Desk {
            alloc: _,
            site,
            keeper,
            strikes: _,
            start: _,
        } = self;
        let _ = site.history();
        (site, keeper)
    }
}
