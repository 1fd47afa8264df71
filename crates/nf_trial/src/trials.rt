//! The messages, one after the other.

ghost use Rattle.std.specs.Prelude.{◌≡◌, ◌≤◌, None};
ghost use Rattle.nf_generate.specs.declared.messages.TheConstants.{MAX_COUNT};
ghost use Rattle.nf_session.specs.Book.{held};
ghost use Rattle.nf_trial.specs.Single.{Judges, TriesOne};
ghost use Rattle.nf_trial.specs.Trials.{Concludes, is_granted as granted_by, is_want as wanted_by};

use crate::noted::Noted;
use crate::same::Same;
use nf_generate::{Message, Messages};
use nf_outside::{MemSink, MemSource};
use nf_routes::Routes;
use nf_session::{Backend, Ended, serve_session};
use std::alloc::Global;

/// How the messages went.
#[derive(Clone, Copy)]
pub enum Tried {
    /// All were answered: so many by a status below 300, and the others.
    All { granted: u64, denied: u64 },
    /// The store failed, and counted it.
    Store,
    /// There was no memory.
    Memory,
    /// The session of a message ended otherwise than closed.
    Broken(Option<Ended>),
}

/// How one message went.
#[derive(Clone, Copy)]
pub(crate) enum One {
    Answered { is_granted: bool },
    Store,
    Memory,
    Broken(Option<Ended>),
}

/// Serves so many messages of a seed, each in a session of its own, until the store fails, memory is wanting or a session ends otherwise
/// than closed.
pub fn try_list<B: Backend + Drop>(
    alloc: Global,
    routes: &Routes,
    backend: B,
    seed: u64,
    count: u64,
) -> (Tried, B)
    requires idle { held (B.book backend) ≡ None }
    requires few { count ≤ MAX_COUNT }
    ensures concludes { Concludes seed count (B.book backend) (B.book result.1) result.0 }
    ensures idle { held (B.book result.1) ≡ None }
    ensures lent { B.lent result.1 ≡ B.lent backend }
{
    let mut noted = Noted::new(backend);
    let tried = try_all(alloc, routes, &mut noted, seed, count);
    (tried, noted.into_inner())
}

fn try_all<B: Backend + Drop>(
    alloc: Global,
    routes: &Routes,
    backend: &mut Noted<B>,
    seed: u64,
    count: u64,
) -> Tried
    requires idle { held (B.book backend.old.backend) ≡ None }
    requires first { backend.old.start.value ≡ backend.old.backend }
    requires few { count ≤ MAX_COUNT }
    ensures concludes { Concludes seed count (B.book backend.old.backend) (B.book backend.new.backend) result }
    ensures idle { held (B.book backend.new.backend) ≡ None }
    ensures lent { B.lent backend.new.backend ≡ B.lent backend.old.backend }
{
    let mut messages = Messages::new(seed);
    let mut granted = 0;
    for at in 0..count {
        prove!(granted <= at);
        let Ok(message) = messages.next(alloc) else {
            return Tried::Memory;
        };
        match try_one(alloc, routes, backend, message) {
            One::Answered { is_granted } => granted += u64::from(is_granted),
            One::Store => return Tried::Store,
            One::Memory => return Tried::Memory,
            One::Broken(end) => return Tried::Broken(end),
        }
    }
    Tried::All {
        granted,
        denied: count - granted,
    }
}

// Serves one message.
fn try_one<B: Backend + Drop>(
    alloc: Global,
    routes: &Routes,
    backend: &mut Noted<B>,
    message: Message,
) -> One
    requires { held (B.book backend.old.backend) ≡ None }
    ensures tries { TriesOne B.Backend backend.old backend.new message.bytes.items message.moment result }
    ensures idle { held (B.book backend.new.backend) ≡ None }
    ensures lent { B.lent backend.new.backend ≡ B.lent backend.old.backend }
    ensures start { backend.new.start ≡ backend.old.start }
{
    let Message { bytes, moment } = message;
    let mut input = MemSource::new(bytes, Vec::new(alloc), Vec::new(alloc));
    let mut output = MemSink::new(alloc, Vec::new(alloc));
    let mut clock = Same::new(moment);
    let mut dice = Same::new(0);
    let ended = serve_session(
        alloc,
        routes,
        &mut input,
        &mut output,
        &mut clock,
        &mut dice,
        backend,
    );
    judged(backend.has_failed(), ended, output.bytes())
}

// How a message went whose session ended so, and wrote that. A write to memory fails only for want of it.
fn judged(has_failed: bool, ended: Option<Ended>, output: &[u8]) -> One
    ensures { Judges has_failed ended output.now result }
{
    match ended {
        _ if has_failed => One::Store,
        Some(Ended::Closed) if is_want(output) => One::Memory,
        Some(Ended::Closed) => One::Answered {
            is_granted: is_granted(output),
        },
        Some(Ended::Memory | Ended::ReadFault | Ended::WriteFault) => One::Memory,
        other => One::Broken(other),
    }
}

fn is_granted(output: &[u8]) -> bool
    ensures { result ≡ granted_by output.now }
{
    output.starts_with(b"HTTP/1.1 2")
}

fn is_want(output: &[u8]) -> bool
    ensures { result ≡ wanted_by output.now }
{
    output.starts_with(b"HTTP/1.1 503 ")
}
