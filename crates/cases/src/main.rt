//! Runs the cases of a folder through the server's top call, and by several seats of a hub, and tells which of them differ: over keepers in
//! memory, over a database with a disk in memory, or over both.
#![tactic(auto)]

mod connection;
mod database;
mod events;
mod faults;
mod folder;
mod jobs;
mod keeping;
mod running;
mod seats;
mod stage;
mod transcript;

use case_files::{Judged, Run, Tally, case_of, judge};
use database::DatabaseKeeper;
use keeping::TestKeeper;
use nf_keeper::MemKeeper;
use running::{Keepers, serve};
use std::process::ExitCode;
use std::sync::Wait;
use std::thread::Threads;
use std::{env, fs, io};

/// Where the cases lie if no argument names another folder: where the program is run.
const HERE: &str = ".";

/// The argument by which the cases are run over a database.
const DATABASE: &str = "--database";

/// How lines end that speak of that.
const OVER_DATABASE: &str = ", over a database";

/// What the program ends with where the cases can't be looked for.
const NO_CASES: u8 = 2;

/// What the program is asked for.
#[derive(Drop)]
struct Asked {
    folder: String,
    in_memory: bool,
    in_database: bool,
}

fn main(rt: HostRuntime) -> ExitCode {
    match check_all(&rt, &rt) {
        Ok(code) => ExitCode::from(code),
        Err(error) => {
            let _ = eprintln!(rt; "cases: {error}");
            ExitCode::from(NO_CASES)
        }
    }
}

// `turns` is the same runtime, as what may wait for turns.
fn check_all<W: Threads + Wait + Sync>(rt: &HostRuntime, turns: &W) -> io::Result<u8> {
    let asked = read_words(rt)?;
    let mut code = 0;
    if asked.in_memory {
        let tally = check_over::<W, MemKeeper>(rt, turns, asked.folder.as_str(), "")?;
        code = code.max(tally.code());
    }
    if asked.in_database {
        let tally = check_over::<W, DatabaseKeeper>(
            rt,
            turns,
            asked.folder.as_str(),
            OVER_DATABASE,
        )?;
        code = code.max(tally.code());
    }
    Ok(code)
}

// A folder alone is run over keepers in memory, and without any argument both are.
fn read_words(rt: &HostRuntime) -> io::Result<Asked> {
    let mut words = env::args(rt)?;
    let first = words.nth(1);
    let in_database = match &first {
        Some(first) => first.as_str() == DATABASE,
        None => true,
    };
    let in_memory = first.is_none() || !in_database;
    let folder = if in_database { words.next() } else { first };
    Ok(Asked {
        folder: match folder {
            Some(folder) => folder,
            None => String::from_str(rt.alloc(), HERE)?,
        },
        in_memory,
        in_database,
    })
}

// Lines end by what they are over.
fn check_over<W: Threads + Wait + Sync, K: TestKeeper>(
    rt: &HostRuntime,
    turns: &W,
    folder: &str,
    over: &str,
) -> io::Result<Tally> {
    let names = folder::names(rt, folder)?;
    let mut judged = Vec::new(rt.alloc());
    for name in &names {
        check_case::<W, K>(rt, turns, folder, name.as_str(), over, &mut judged)?;
    }
    let tally = Tally::of(&judged);
    let (passed, differing, not_run) = (tally.passed, tally.differing, tally.not_run);
    println!(rt;
        "{} cases, {passed} runs passed, {differing} differ, {not_run} not run{over}",
        names.len()
    )?;
    Ok(tally)
}

// Makes the runs of one case, each over keepers of its own or over what the one before it left.
fn check_case<W: Threads + Wait + Sync, K: TestKeeper>(
    rt: &HostRuntime,
    turns: &W,
    folder: &str,
    name: &str,
    over: &str,
    judged: &mut Vec<Judged>,
) -> io::Result<()> {
    let text = fs::read_to_string(rt, folder::path(rt.alloc(), folder, name)?)?;
    let case = match case_of(rt.alloc(), text.as_str()) {
        Ok(case) => case,
        Err(why) => {
            println!(rt; "{name}: not run: {}{over}", why.word())?;
            return Ok(judged.push(Judged::NotRun)?);
        }
    };
    let mut keepers: Keepers<K> = Keepers::new(rt.alloc())?;
    for (index, run) in case.runs.iter().enumerate() {
        let served = serve(turns, rt.alloc(), run, keepers)?;
        let line = judge(rt.alloc(), run, &served.whole, &served.cut, &served.seats)?;
        judged.push(Judged::of(&line))?;
        if let Some(line) = line {
            println!(rt; "{name}: run {}, {line}{over}", index + 1)?;
        }
        keepers = served.keepers;
    }
    Ok(())
}
