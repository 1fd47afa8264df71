//! The command that serves the messages of a seed, and tells what they left.

ghost use Rattle.std.specs.Prelude.{◌≡◌, ◌≤◌, [], None, IfOk, IfSome};
ghost use Rattle.nf_desk.specs.Desk.{meanings, shown};
ghost use Rattle.nf_generate.specs.declared.messages.TheConstants.{MAX_COUNT};
ghost use Rattle.nf_hub.specs.Seats.{IsSeat, book, memory_of, steady};
ghost use Rattle.nf_session.specs.Book.{held};
ghost use Rattle.nf_trial.specs.Trials.{Concludes};
ghost use Rattle.nf_trial.specs.declared.trials.Tried.TheVariants as how;
ghost use Rattle.nf_turn.specs.Book.{IsFresh};
ghost use Rattle.filesd.specs.Generate.{Generates, ListsDesk, TellsTried, lines_of, summary as spec_summary, user_line as spec_user_line};
ghost use Rattle.filesd.specs.Outside.{outlet, output_alone};
ghost use Rattle.filesd.specs.Reopening.{Leaves, Pays};
ghost use Rattle.filesd.specs.Seat.{AreOwn};

use crate::opening::{demonstration, status_of as status_of_fault};
use crate::running::{Finished, handed_out, unopened};
use crate::status::{Status, status_of};
use nf_base::MAX_SEATS;
use nf_desk::{Desk, Opening, Unopened};
use nf_http::send;
use nf_hub::{Hub, Seat, Visit};
use nf_keeper::Keeper;
use nf_outside::Sink;
use nf_routes::Routes;
use nf_site::{Site, Totals, UserTotals};
use nf_trial::{Tried, try_list};
use std::alloc::{AllocError, Global};
use std::sync::Wait;

/// Which messages are to be served.
#[derive(Clone, Copy)]
pub(crate) struct Asked {
    pub(crate) seed: u64,
    pub(crate) count: u64,
}

/// Stores the demonstration rows where there are none, serves each message of the list in a session of its own, and writes how many were
/// granted and what users' files, trash and versions take up then.
pub(crate) fn generate<R: Wait, O: Sink, K: Keeper + Drop>(
    rt: &R,
    alloc: Global,
    asked: Asked,
    output: &mut O,
    keeper: K,
) -> Finished<K>
    requires { (1 ≤ asked.count) × (asked.count ≤ MAX_COUNT) }
    ensures generates { Generates asked.seed asked.count
        (outlet O.Ends K.Keeper output.old keeper) (outlet O.Ends K.Keeper output.new result.keeper) result.status result.site }
    ensures leaves { IfSome result.site (λ site. Leaves site.kept (K.told result.keeper)) }
    ensures paid { IfSome result.site (λ site. Pays site.kept (K.faults keeper) (K.faults result.keeper)) }
    ensures alone { IfSome result.site (λ site. AreOwn site.kept.history) }
{
    let first = match demonstration(alloc) {
        Ok(first) => first,
        Err(_) => return unopened(Status::Memory, keeper),
    };
    let routes = match Routes::new(alloc) {
        Ok(routes) => routes,
        Err(_) => return unopened(Status::Memory, keeper),
    };
    match Desk::open(alloc, keeper, Opening::Fresh(first)) {
        Ok(desk) => serve_list(rt, alloc, &routes, asked, output, desk),
        Err(Unopened { fault, keeper }) => unopened(status_of_fault(fault), keeper),
    }
}

/// Serves the list over a desk that was just opened, through the first seat of its hub.
fn serve_list<R: Wait, O: Sink, K: Keeper + Drop>(
    rt: &R,
    alloc: Global,
    routes: &Routes,
    asked: Asked,
    output: &mut O,
    desk: Desk<K>,
) -> Finished<K>
    requires count { (1 ≤ asked.count) × (asked.count ≤ MAX_COUNT) }
    requires fresh { IsFresh (meanings K.Keeper) desk }
    requires history { desk.site.kept.history ≡ [] }
    requires start { desk.start.value ≡ desk.keeper }
    ensures lists { ListsDesk asked.seed asked.count (shown K.Keeper desk)
        (outlet O.Ends K.Keeper output.old desk.keeper) (outlet O.Ends K.Keeper output.new result.keeper) result.status result.site }
    ensures leaves { IfSome result.site (λ site. Leaves site.kept (K.told result.keeper)) }
    ensures paid { IfSome result.site (λ site. Pays site.kept (K.faults desk.keeper) (K.faults result.keeper)) }
    ensures alone { IfSome result.site (λ site. AreOwn site.kept.history) }
{
    match Hub::over(alloc, desk, MAX_SEATS) {
        Ok((hub, seat)) => {
            let (tried, seat) = serve_messages(rt, alloc, routes, &hub, seat, asked);
            let (site, keeper) = hub.close(seat);
            Finished {
                status: tell(alloc, output, &site, asked.count, tried),
                keeper,
                site: Some(site),
            }
        }
        Err(desk) => handed_out(Status::Memory, desk),
    }
}

/// Serves the messages through a seat, which is theirs while they last.
fn serve_messages<R: Wait, K: Keeper + Drop>(
    rt: &R,
    alloc: Global,
    routes: &Routes,
    hub: &Hub<K>,
    seat: Seat<K>,
    asked: Asked,
) -> (Tried, Seat<K>)
    requires seat { IsSeat K.Keeper hub.now seat }
    requires idle { held (book K.Keeper hub.now seat) ≡ None }
    requires count { asked.count ≤ MAX_COUNT }
    ensures seat { IsSeat K.Keeper hub.now result.1 }
    ensures idle { held (book K.Keeper hub.now result.1) ≡ None }
    ensures steady { steady (memory_of K.Keeper hub.now result.1) ≡ steady (memory_of K.Keeper hub.now seat) }
    ensures concludes { Concludes asked.seed asked.count (book K.Keeper hub.now seat) (book K.Keeper hub.now result.1) result.0 }
{
    let visit = Visit::new(rt, hub, seat);
    let (tried, visit) = try_list(alloc, routes, visit, asked.seed, asked.count);
    (tried, visit.into_seat())
}

/// Writes the summary, if all messages were served.
fn tell<O: Sink>(alloc: Global, output: &mut O, site: &Site, count: u64, tried: Tried) -> Status
    ensures tells { TellsTried count site.now.kept.state.tables tried (output_alone O.Ends output.old) (output_alone O.Ends output.new) result }
    ensures begun { O.begun output.new ≡ O.begun output.old }
{
    match tried {
        Tried::All { granted, denied } => say(
            alloc,
            output,
            site,
            &Counts {
                count,
                granted,
                denied,
            },
        ),
        Tried::Store => Status::StoreFault,
        Tried::Memory => Status::Memory,
        Tried::Broken(end) => status_of(end),
    }
}

fn say<O: Sink>(alloc: Global, output: &mut O, site: &Site, counts: &Counts) -> Status
    ensures tells { TellsTried counts.now.count site.now.kept.state.tables (how.All counts.now.granted counts.now.denied)
        (output_alone O.Ends output.old) (output_alone O.Ends output.new) result }
    ensures begun { O.begun output.new ≡ O.begun output.old }
{
    let text = match summary(alloc, site, counts) {
        Ok(text) => text,
        Err(_) => return Status::Memory,
    };
    match send(output, &text) {
        Ok(()) => Status::Done,
        Err(_) => Status::WriteFault,
    }
}

/// How many messages there were, how many of them were granted, and how many weren't.
#[derive(Clone, Copy)]
struct Counts {
    count: u64,
    granted: u64,
    denied: u64,
}

fn summary(alloc: Global, site: &Site, counts: &Counts) -> Result<Vec<u8>, AllocError>
    ensures { IfOk result (λ text. text.items ≡ spec_summary counts.now.count counts.now.granted counts.now.denied site.now.kept.state.tables) }
{
    let totals = site.totals(alloc)?;
    let Counts {
        count,
        granted,
        denied,
    } = *counts;
    let first = format!(in alloc; "messages {count}\ngranted {granted}\ndenied {denied}\n")?;
    let mut text = first.into_bytes();
    text.extend_from_slice(&user_lines(alloc, &totals)?)?;
    let grants = totals.grants;
    let last = format!(in alloc; "grants {grants}\n")?;
    text.extend_from_slice(last.as_bytes())?;
    Ok(text)
}

fn user_lines(alloc: Global, totals: &Totals) -> Result<Vec<u8>, AllocError>
    ensures { IfOk result (λ lines. lines.items ≡ lines_of totals.now.users.items) }
{
    let mut lines = Vec::new(alloc);
    for user in &totals.users {
        lines.extend_from_slice(&user_line(alloc, user)?)?;
    }
    Ok(lines)
}

fn user_line(alloc: Global, user: &UserTotals) -> Result<Vec<u8>, AllocError>
    ensures { IfOk result (λ line. line.items ≡ spec_user_line user.now) }
{
    let UserTotals {
        name,
        charge,
        trash,
        versions,
    } = user;
    let rest = format!(in alloc; " charge {charge} trash {trash} versions {versions}\n")?;
    let mut line = name.as_bytes().to_vec(alloc)?;
    line.extend_from_slice(rest.as_bytes())?;
    Ok(line)
}
