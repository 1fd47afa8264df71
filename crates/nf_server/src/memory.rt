//! A door in memory.

ghost use Rattle.std.specs.Prelude.{◌≡◌, ◌+◌, ◌≤◌, ◌<◌, [], vec_capacity, vec_len, IfOk, IfSome, Some, is_ok, not, false};
ghost use Rattle.std.specs.Vec.Iter.{into_iter_items, into_iter_len};
ghost use Rattle.nf_outside.specs.Calls.{IsNextCall, first_calls, is_failing};
ghost use Rattle.nf_outside.specs.Causes.{HasCause};
ghost use Rattle.nf_server.specs.Doors.{GivesLink, behind, closed, unless_closed};

use crate::door::Door;
use crate::link::Link;
use nf_outside::{CallCount, Failed, Sink, Source};
use std::alloc::{AllocError, Global};
use std::vec::IntoIter;

/// A door in memory, which tells its connections. It keeps those that were served.
#[derive(Drop)]
pub struct MemDoor<S: Drop, O: Drop> {
    coming: IntoIter<Link<S, O>, Global>,
    served: Vec<Link<S, O>>,
    calls: CallCount,
    is_closed: bool,
    ghost room: { vec_len served + into_iter_len coming ≤ vec_capacity served },
}

impl<S: Drop, O: Drop> MemDoor<S, O> {
    /// The calls of `next` whose numbers are in `failing` fail, and no others. The first has number 1.
    pub fn new(
        alloc: Global,
        links: Vec<Link<S, O>>,
        failing: Vec<u64>,
    ) -> Result<MemDoor<S, O>, AllocError>
        ensures coming { IfOk result (λ door. into_iter_items door.coming ≡ links.items) }
        ensures served { IfOk result (λ door. door.served.items ≡ []) }
        ensures calls { IfOk result (λ door. door.calls ≡ first_calls failing.items) }
        ensures opened { IfOk result (λ door. door.is_closed ≡ false) }
    {
        let mut served = Vec::new(alloc);
        served.reserve(links.len())?;
        Ok(MemDoor {
            coming: links.into_iter(),
            served,
            calls: CallCount::new(failing),
            is_closed: false,
        })
    }

    /// The connections that were given back, in their order.
    pub fn served(&self) -> &[Link<S, O>]
        ensures { result.now ≡ self.now.served.items }
    {
        &self.served
    }
}

impl<S: Source + Drop, O: Sink + Drop> Door for MemDoor<S, O> {
    type Source = S;

    type Sink = O;

    ghost coming = { λ door. Some (unless_closed door.is_closed (into_iter_items door.coming)) };

    ghost served = { λ door. Some door.served.items };

    ghost faults = { λ door. door.calls.faults };

    ghost has_room = { λ door. vec_len door.served + into_iter_len door.coming < vec_capacity door.served };

    /// Fails where it is listed as a call that fails, and only there.
    fn next(&mut self) -> Result<Option<Link<S, O>>, Failed>
        ensures gives { GivesLink (⟦<MemDoor<S, O> as Door>⟧.coming self.old) (⟦<MemDoor<S, O> as Door>⟧.coming self.new) result }
        ensures cause { HasCause (⟦<MemDoor<S, O> as Door>⟧.faults self.old) (⟦<MemDoor<S, O> as Door>⟧.faults self.new) result }
        ensures served { ⟦<MemDoor<S, O> as Door>⟧.served self.new ≡ ⟦<MemDoor<S, O> as Door>⟧.served self.old }
        ensures room { IfOk result (λ given. IfSome given (λ _. ⟦<MemDoor<S, O> as Door>⟧.has_room self.new)) }
        ensures next { IsNextCall self.old.calls self.new.calls }
        ensures fails { is_ok result ≡ not (is_failing self.new.calls) }
    {
        self.calls.next()?;
        if self.is_closed {
            return Ok(None);
        }
        Ok(self.coming.next())
    }

    fn back(&mut self, link: Link<S, O>)
        requires room { ⟦<MemDoor<S, O> as Door>⟧.has_room self.old }
        ensures served { ⟦<MemDoor<S, O> as Door>⟧.served self.new ≡ behind (⟦<MemDoor<S, O> as Door>⟧.served self.old) link }
        ensures coming { ⟦<MemDoor<S, O> as Door>⟧.coming self.new ≡ ⟦<MemDoor<S, O> as Door>⟧.coming self.old }
        ensures faults { ⟦<MemDoor<S, O> as Door>⟧.faults self.new ≡ ⟦<MemDoor<S, O> as Door>⟧.faults self.old }
    {
        self.served.push_reserved(link);
    }

    fn close(&mut self) {
        self.is_closed = true;
    }
}
