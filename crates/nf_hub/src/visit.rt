//! A seat as a session meets it.

ghost use Rattle.std.specs.Prelude.{◌≡◌, None};
ghost use Rattle.nf_hub.specs.Seats.{IsSeat, book, memory_of, steady};
ghost use Rattle.nf_hub.specs.Visiting.{Visiting};

use crate::hub::Hub;
use crate::seat::Seat;
use nf_base::{Content, Moment};
use nf_desk::Desk;
use nf_keeper::Keeper;
use nf_session::{Backend, Ending, PieceFault};
use nf_words::{Answer, Request, Words};
use std::marker::Model;
use std::sync::Wait;

/// A seat as a session meets it, whose the seat is while the session lasts.
#[derive(Drop)]
pub struct Visit<'r, 'h, R: Wait, K: Keeper + Drop> {
    rt: &'r R,
    hub: &'h Hub<K>,
    seat: Seat<K>,
}

impl<'r, 'h, R: Wait, K: Keeper + Drop> Model for Visit<'r, 'h, R, K> {
    ghost use Rattle.nf_hub.specs.Seats.{IsSeat};
    ghost use Rattle.nf_hub.specs.Visiting.{Visiting};

    ghost Value = { Visiting K };

    ghost view = { λ v. record { hub = v.hub; seat = v.seat } };

    ghost invariant = { λ v. IsSeat K.Keeper v.hub.now v.seat };
}

impl<'r, 'h, R: Wait, K: Keeper + Drop> Visit<'r, 'h, R, K> {
    pub fn new(rt: &'r R, hub: &'h Hub<K>, seat: Seat<K>) -> Self
        requires { IsSeat K.Keeper hub.now seat }
        ensures { result ≡ record { hub = hub.entry; seat = seat } }
    {
        Visit { rt, hub, seat }
    }

    pub fn into_seat(self) -> Seat<K>
        ensures same { result ≡ self.entry.seat }
        ensures seat { IsSeat K.Keeper self.entry.hub.now result }
    {
        let Visit {
            rt: _,
            hub: _,
            seat,
        } = self;
        seat
    }
}

impl<'r, 'h, R: Wait, K: Keeper + Drop> Backend for Visit<'r, 'h, R, K> {
    type Lent = (&'h Hub<K>, nf_turn::Memory<Desk<K>>);

    ghost lent = { λ v. (v.hub, steady (memory_of K.Keeper v.hub.now v.seat)) };

    ghost book = { λ v. book K.Keeper v.hub.now v.seat };

    fn begin(&mut self, now: Moment, words: Words, request: Request) -> Answer {
        self.hub.ask(self.rt, &mut self.seat, now, words, request)
    }

    fn blob(&mut self, content: &Content, index: usize) -> Result<Vec<u8>, PieceFault> {
        self.hub.piece(self.rt, &mut self.seat, content, index)
    }

    fn end(&mut self, now: Moment, ending: Ending) -> Answer {
        self.hub.finish(self.rt, &mut self.seat, now, ending)
    }
}
