//! The top call.

ghost use Rattle.std.specs.Prelude.{◌≡◌, ◌≢◌, ◌<◌, ◌≤◌, ◌⊎◌, ℕ, length, List, map, [], IfSome, None, Some};
ghost use Rattle.std.specs.String.{string_bytes};
ghost use Rattle.nf_base.specs.declared.limits.TheConstants.{MAX_QUOTA};
ghost use Rattle.nf_base.specs.Naming.{IsName};
ghost use Rattle.nf_command.specs.Command.{IsBatch, IsCommand, IsGenerate, IsInit, IsServe, IsSomeGenerate, IsSomeServe, IsSweep};
ghost use Rattle.nf_command.specs.First.{first_rows, init_rows};
ghost use Rattle.nf_command.specs.Reading.{MayTakeMemory};
ghost use Rattle.nf_desk.specs.Desk.{meanings, shown};
ghost use Rattle.nf_outside.specs.Causes.{Rose};
ghost use Rattle.nf_outside.specs.Lent.{lent, takes};
ghost use Rattle.nf_trial.specs.Trials.{Risen};
ghost use Rattle.nf_turn.specs.Book.{IsFresh};
ghost use Rattle.filesd.specs.Doors.{OneRose, RunsDoors};
ghost use Rattle.filesd.specs.Ending.{BatchEndsWell, GenerateEndsWell, InitEndsWell, ServeEndsWell, SweepEndsWell};
ghost use Rattle.filesd.specs.Generate.{Generates};
ghost use Rattle.filesd.specs.Init.{Inits, IsSomeDigest};
ghost use Rattle.filesd.specs.Next.{KeepsSafe};
ghost use Rattle.filesd.specs.OneFile.{ServesOneFile};
ghost use Rattle.filesd.specs.Outside.{outlet, outside};
ghost use Rattle.filesd.specs.Reopening.{Leaves, Pays};
ghost use Rattle.filesd.specs.Seat.{AreOwn};
ghost use Rattle.filesd.specs.Session.{DoesNothing, Runs, ServesDesk};
ghost use Rattle.filesd.specs.Sweep.{Sweeps, reads_clock};
ghost use Rattle.filesd.specs.declared.status.Status.TheVariants as exit;

use crate::doors::serve_doors;
use crate::generating::{Asked, generate};
use crate::opening::{demonstration, status_of as status_of_fault};
use crate::status::{Status, status_of};
use crate::sweeping::sweep;
use nf_base::MAX_SEATS;
use nf_command::{Command, Init, command_of, init_rows};
use nf_desk::{Desk, First, Opening, Unopened};
use nf_http::send;
use nf_hub::Hub;
use nf_keeper::Keeper;
use nf_outside::{Clock, Dice, Sink, Source};
use nf_routes::Routes;
use nf_server::{Door, Served, Worker, serve_ends};
use nf_site::Site;
use std::alloc::Global;
use std::sync::Wait;
use std::thread::Threads;

/// What is left of a run: how it ended, the keeper, and the site, if one was opened.
#[derive(Drop)]
pub struct Finished<K: Drop> {
    pub status: Status,
    pub keeper: K,
    pub site: Option<Site>,
}

/// What the program does by its words: `batch` serves the input and the output as one session over the rows that the keeper has, or over
/// the demonstration rows, which it stores first where the keeper has none. `init` stores the rows of one administrator. `serve` serves
/// the connections of the workers' doors over the rows that the keeper has. `generate` stores the demonstration rows where the keeper has
/// none, and serves the messages of a seed, each in a session of its own. `sweep` makes one sweep: of each trash goes what it doesn't
/// hold any more, and then the blobs that nothing names.
///
/// The site after the run is handed out with its history, but where none was opened.
pub fn run<R, S, O, K, C, Q, D, W, V>(
    rt: &R,
    alloc: Global,
    words: &[String],
    input: &mut S,
    output: &mut O,
    keeper: K,
    clock: &mut C,
    dice: &mut Q,
    workers: &mut [Worker<D, W, V>],
) -> Finished<K>
where
    R: Threads + Wait + Sync,
    S: Source,
    O: Sink,
    K: Keeper + Drop + Send,
    C: Clock,
    Q: Dice,
    D: Door + Drop + Send,
    W: Clock + Drop + Send,
    V: Dice + Drop + Send,
    D::Source: Send,
    D::Sink: Send,
    requires workers { length workers.old < MAX_SEATS }
    ensures words { result.status ≡ exit.Words → IsCommand (map string_bytes words.now) → ⊥ }
    // Memory can be wanting for the name of an `init` that is right but for its name, and for the words behind `serve`.
    ensures no_command { (IsCommand (map string_bytes words.now) → ⊥)
        → (result.status ≡ exit.Words) ⊎ ((result.status ≡ exit.Memory) × MayTakeMemory (map string_bytes words.now)) }
    ensures batch { IsBatch (map string_bytes words.now) → Runs (takes C.reads Q.draws)
        (outside S.Ends O.Ends K.Keeper input.old output.old keeper (lent clock.old dice.old))
        (outside S.Ends O.Ends K.Keeper input.new output.new result.keeper (lent clock.new dice.new)) result.status result.site }
    ensures init { (name token : List ℕ) (quota : ℕ) → IsInit (map string_bytes words.now) name token quota → Inits (init_rows name token quota)
        (outside S.Ends O.Ends K.Keeper input.old output.old keeper (lent clock.old dice.old))
        (outside S.Ends O.Ends K.Keeper input.new output.new result.keeper (lent clock.new dice.new)) result.status result.site }
    ensures serve { (n : ℕ) → IsServe (map string_bytes words.now) n
        → RunsDoors K.Keeper D.Source.Ends D.Sink.Ends (takes W.reads V.draws) D.Door n keeper result.keeper workers.old workers.new result.status result.site }
    ensures sweep { IsSweep (map string_bytes words.now) → Sweeps (reads_clock C.reads)
        (outside S.Ends O.Ends K.Keeper input.old output.old keeper (lent clock.old dice.old))
        (outside S.Ends O.Ends K.Keeper input.new output.new result.keeper (lent clock.new dice.new)) result.status result.site }
    ensures generate { (seed count : ℕ) → IsGenerate (map string_bytes words.now) seed count → Generates seed count
        (outside S.Ends O.Ends K.Keeper input.old output.old keeper (lent clock.old dice.old))
        (outside S.Ends O.Ends K.Keeper input.new output.new result.keeper (lent clock.new dice.new)) result.status result.site }
    // A `serve` uses neither the input, nor the output, nor the clock, nor the dice; and no other command uses the workers.
    ensures apart { IsSomeServe (map string_bytes words.now)
        → outside S.Ends O.Ends K.Keeper input.new output.new result.keeper (lent clock.new dice.new)
        ≡ record (outside S.Ends O.Ends K.Keeper input.old output.old keeper (lent clock.old dice.old)) { told = K.told result.keeper; faults = K.faults result.keeper } }
    ensures workers { (IsSomeServe (map string_bytes words.now) → ⊥) → workers.new ≡ workers.old }
    ensures nothing { (IsCommand (map string_bytes words.now) → ⊥) → DoesNothing
        (outside S.Ends O.Ends K.Keeper input.old output.old keeper (lent clock.old dice.old))
        (outside S.Ends O.Ends K.Keeper input.new output.new result.keeper (lent clock.new dice.new)) result.site }

    // The site at the end, and what the keeper tells then: its rows, and blobs that are whole for it.
    ensures leaves { IfSome result.site (λ site. Leaves site.kept (K.told result.keeper)) }
    ensures paid { IfSome result.site (λ site. Pays site.kept (K.faults keeper) (K.faults result.keeper)) }
    // A safe store is left safe, so all of this holds of the next run, too.
    ensures safe { KeepsSafe (K.told keeper) (K.told result.keeper) }
    // But for a `serve`, all entries are those of the one seat.
    ensures alone { (IsSomeServe (map string_bytes words.now) → ⊥) → IfSome result.site (λ site. AreOwn site.kept.history) }
    ensures room { IsBatch (map string_bytes words.now) → result.status ≢ exit.RunFull }

    // Where nothing of the outside fails, over a store that is as the words ask.
    ensures batch_well { IsBatch (map string_bytes words.now) → BatchEndsWell
        (outside S.Ends O.Ends K.Keeper input.old output.old keeper (lent clock.old dice.old))
        (outside S.Ends O.Ends K.Keeper input.new output.new result.keeper (lent clock.new dice.new)) result.status }
    ensures init_well { (name token : List ℕ) (quota : ℕ) → IsInit (map string_bytes words.now) name token quota → InitEndsWell
        (outside S.Ends O.Ends K.Keeper input.old output.old keeper (lent clock.old dice.old))
        (outside S.Ends O.Ends K.Keeper input.new output.new result.keeper (lent clock.new dice.new)) result.status }
    ensures serve_well { IsSomeServe (map string_bytes words.now)
        → ServeEndsWell D.Door (K.told keeper) (K.faults keeper) (K.faults result.keeper) workers.old workers.new result.status }
    ensures sweep_well { IsSweep (map string_bytes words.now) → SweepEndsWell
        (outside S.Ends O.Ends K.Keeper input.old output.old keeper (lent clock.old dice.old))
        (outside S.Ends O.Ends K.Keeper input.new output.new result.keeper (lent clock.new dice.new)) result.status }
    ensures generate_well { IsSomeGenerate (map string_bytes words.now) → GenerateEndsWell
        (outside S.Ends O.Ends K.Keeper input.old output.old keeper (lent clock.old dice.old))
        (outside S.Ends O.Ends K.Keeper input.new output.new result.keeper (lent clock.new dice.new)) result.status }

    // One GET of a file, said without the session.
    ensures one_file { IsBatch (map string_bytes words.now) → ServesOneFile
        (outside S.Ends O.Ends K.Keeper input.old output.old keeper (lent clock.old dice.old))
        (outside S.Ends O.Ends K.Keeper input.new output.new result.keeper (lent clock.new dice.new)) result.status }

    ensures read { result.status ≡ exit.ReadFault → Rose (S.read_faults input.old) (S.read_faults input.new) }
    ensures write { result.status ≡ exit.WriteFault → Rose (O.write_faults output.old) (O.write_faults output.new) }
    ensures store { (IsSomeGenerate (map string_bytes words.now) → ⊥) → result.status ≡ exit.StoreFault → Rose (K.faults keeper) (K.faults result.keeper) }
    ensures store_risen { result.status ≡ exit.StoreFault → Risen (K.faults keeper) (K.faults result.keeper) }
    ensures door { result.status ≡ exit.DoorFault → OneRose D.Door workers.old workers.new }
{
    match command_of(alloc, words) {
        Ok(Some(Command::Batch)) => batch(rt, alloc, input, output, keeper, clock, dice),
        Ok(Some(Command::Init(init))) => initialize(alloc, &init, output, keeper),
        Ok(Some(Command::Serve { connections })) => serve_doors(
            rt,
            alloc,
            keeper,
            workers,
            connections,
        ),
        Ok(Some(Command::Sweep)) => sweep(alloc, output, keeper, clock),
        Ok(Some(Command::Generate { seed, count })) => generate(
            rt,
            alloc,
            Asked { seed, count },
            output,
            keeper,
        ),
        Ok(None) => unopened(Status::Words, keeper),
        Err(_) => unopened(Status::Memory, keeper),
    }
}

/// One session over what the keeper has.
fn batch<R: Wait, S: Source, O: Sink, K: Keeper + Drop, C: Clock, Q: Dice>(
    rt: &R,
    alloc: Global,
    input: &mut S,
    output: &mut O,
    keeper: K,
    clock: &mut C,
    dice: &mut Q,
) -> Finished<K>
    ensures runs { Runs (takes C.reads Q.draws)
        (outside S.Ends O.Ends K.Keeper input.old output.old keeper (lent clock.old dice.old))
        (outside S.Ends O.Ends K.Keeper input.new output.new result.keeper (lent clock.new dice.new)) result.status result.site }
    ensures leaves { IfSome result.site (λ site. Leaves site.kept (K.told result.keeper)) }
    ensures paid { IfSome result.site (λ site. Pays site.kept (K.faults keeper) (K.faults result.keeper)) }
    ensures alone { IfSome result.site (λ site. AreOwn site.kept.history) }
    ensures room { result.status ≢ exit.RunFull }
{
    let first = match demonstration(alloc) {
        Ok(first) => first,
        Err(_) => return unopened(Status::Memory, keeper),
    };
    let routes = match Routes::new(alloc) {
        Ok(routes) => routes,
        Err(_) => return unopened(Status::Memory, keeper),
    };
    match Desk::open(alloc, keeper, Opening::Either(first)) {
        Ok(desk) => serve_desk(rt, alloc, &routes, input, output, desk, clock, dice),
        Err(Unopened { fault, keeper }) => unopened(status_of_fault(fault), keeper),
    }
}

/// One session over a desk that was just opened, through the first seat of its hub.
fn serve_desk<R: Wait, S: Source, O: Sink, K: Keeper + Drop, C: Clock, Q: Dice>(
    rt: &R,
    alloc: Global,
    routes: &Routes,
    input: &mut S,
    output: &mut O,
    desk: Desk<K>,
    clock: &mut C,
    dice: &mut Q,
) -> Finished<K>
    requires fresh { IsFresh (meanings K.Keeper) desk }
    requires history { desk.site.kept.history ≡ [] }
    requires start { desk.start.value ≡ desk.keeper }
    ensures session { ServesDesk (takes C.reads Q.draws) (shown K.Keeper desk)
        (outside S.Ends O.Ends K.Keeper input.old output.old desk.keeper (lent clock.old dice.old))
        (outside S.Ends O.Ends K.Keeper input.new output.new result.keeper (lent clock.new dice.new)) result.status result.site }
    ensures leaves { IfSome result.site (λ site. Leaves site.kept (K.told result.keeper)) }
    ensures paid { IfSome result.site (λ site. Pays site.kept (K.faults desk.keeper) (K.faults result.keeper)) }
    ensures alone { IfSome result.site (λ site. AreOwn site.kept.history) }
{
    match Hub::over(alloc, desk, MAX_SEATS) {
        Ok((hub, seat)) => {
            let Served { ended, seat } = serve_ends(
                rt, alloc, routes, &hub, seat, input, output, clock, dice,
            );
            let (site, keeper) = hub.close(seat);
            Finished {
                status: status_of(ended),
                keeper,
                site: Some(site),
            }
        }
        Err(desk) => handed_out(Status::Memory, desk),
    }
}

/// Stores the rows of the first administrator, and says so.
fn initialize<O: Sink, K: Keeper + Drop>(
    alloc: Global,
    init: &Init,
    output: &mut O,
    keeper: K,
) -> Finished<K>
    requires name { IsName init.now.name }
    requires quota { init.now.quota ≤ MAX_QUOTA }
    requires token { IsSomeDigest init.now.token }
    ensures inits { Inits (first_rows init.now.name init.now.token init.now.quota)
        (outlet O.Ends K.Keeper output.old keeper) (outlet O.Ends K.Keeper output.new result.keeper) result.status result.site }
    ensures leaves { IfSome result.site (λ site. Leaves site.kept (K.told result.keeper)) }
    ensures paid { IfSome result.site (λ site. Pays site.kept (K.faults keeper) (K.faults result.keeper)) }
    ensures alone { IfSome result.site (λ site. AreOwn site.kept.history) }
{
    let rows = match init_rows(alloc, init) {
        Ok(rows) => rows,
        Err(_) => return unopened(Status::Memory, keeper),
    };
    match Desk::open(alloc, keeper, Opening::Fresh(First { rows, blob: None })) {
        Ok(desk) => match send(output, b"ready\n") {
            Ok(()) => handed_out(Status::Done, desk),
            Err(_) => handed_out(Status::WriteFault, desk),
        },
        Err(Unopened { fault, keeper }) => unopened(status_of_fault(fault), keeper),
    }
}

/// A desk at which no seat did anything.
pub(crate) fn handed_out<K: Keeper + Drop>(status: Status, desk: Desk<K>) -> Finished<K>
    requires history { desk.site.kept.history ≡ [] }
    ensures status { result.status ≡ status }
    ensures keeper { result.keeper ≡ desk.keeper }
    ensures site { result.site ≡ Some desk.site }
    ensures leaves { Leaves desk.site.kept (K.told desk.keeper) }
    ensures paid { Pays desk.site.kept (K.faults desk.keeper) (K.faults desk.keeper) }
    ensures alone { AreOwn desk.site.kept.history }
{
    let (site, keeper) = desk.into_parts();
    Finished {
        status,
        keeper,
        site: Some(site),
    }
}

pub(crate) fn unopened<K: Keeper + Drop>(status: Status, keeper: K) -> Finished<K>
    ensures { result ≡ record { status = status; keeper = keeper; site = None } }
{
    Finished {
        status,
        keeper,
        site: None,
    }
}
