//! Doors: where connections come from.

ghost use Rattle.std.specs.Prelude.{◌≡◌, ℕ, List, IfOk, IfSome};
ghost use Rattle.std.specs.declared.option.Option.{Option};
ghost use Rattle.nf_outside.specs.Causes.{HasCause};
ghost use Rattle.nf_server.specs.Doors.{GivesLink, behind, closed};

use crate::link::Link;
use nf_outside::{Failed, Sink, Source};

/// A door, through which connections come one after the other, and are given back once they were served.
pub trait Door {
    ghost use Rattle.nf_server.specs.declared.link.Link.{Link};

    /// The end of a connection that is read.
    type Source: Source + Drop;

    /// The end that is written.
    type Sink: Sink + Drop;

    /// The connections that are still to come, in their order, where they are told.
    ghost coming: { Self → Option (List (Link Self.Source Self.Sink)) };

    /// Those that were given back, in their order, where they are told.
    ghost served: { Self → Option (List (Link Self.Source Self.Sink)) };

    /// How often the door failed, up to 2^64 - 1.
    ghost faults: { Self → ℕ };

    /// It can take a connection back.
    ghost has_room: { Self → Type 0 };

    /// The next connection, or None where the door is closed.
    fn next(&mut self) -> Result<Option<Link<Self::Source, Self::Sink>>, Failed>
        ensures gives { GivesLink (Self.coming self.old) (Self.coming self.new) result }
        ensures cause { HasCause (Self.faults self.old) (Self.faults self.new) result }
        ensures served { Self.served self.new ≡ Self.served self.old }
        ensures room { IfOk result (λ given. IfSome given (λ _. Self.has_room self.new)) };

    /// Takes back a connection that was served. It takes no memory and never fails.
    fn back(&mut self, link: Link<Self::Source, Self::Sink>)
        requires room { Self.has_room self.old }
        ensures served { Self.served self.new ≡ behind (Self.served self.old) link }
        ensures coming { Self.coming self.new ≡ Self.coming self.old }
        ensures faults { Self.faults self.new ≡ Self.faults self.old };

    /// Says to it that it is closed: no connection comes any more. It takes no memory and never fails.
    fn close(&mut self)
        ensures coming { Self.coming self.new ≡ closed (Self.coming self.old) }
        ensures served { Self.served self.new ≡ Self.served self.old }
        ensures faults { Self.faults self.new ≡ Self.faults self.old };
}
