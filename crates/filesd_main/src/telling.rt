//! What is said on standard error before the last line, which is the word of the status.

use crate::version::VERSION;
use filesd::RowsFault;
use nf_rows::RowFault;

/// Which words are commands, and what the environment may say.
const USAGE: &str = "
usage: filesd serve [--connections M]   answers over TCP, M connections of each thread (1 to 1000000; 1000)
       filesd init NAME TOKEN QUOTA     begins a store with one administrator; QUOTA is in bytes
       filesd batch                     answers the requests of standard input on standard output
       filesd sweep                     drops the bodies that nothing names any more
       filesd generate SEED COUNT       tries COUNT messages that SEED determines (1 to 100000) over the demonstration's rows

What the environment says:
  FILESD_STORE     the file of the store; without it the store is in memory, and ends with the program
  FILESD_LISTEN    where serve listens, as 127.0.0.1:8080
  FILESD_WORKERS   how many threads serve, 1 to 63 (4)
  FILESD_TIMEOUT   how many seconds a read or a write may wait, 1 to 3600 (30)
  FILESD_MESSAGE_TIME, FILESD_PACE
                   how many seconds a whole message or answer may take, 1 to 3600 (30), and how many of its bytes
                   are a second more, 1 to 1000000000 (16384)
  FILESD_SWEEP     how many hours are between two sweeps of the store by serve, 1 to 8760, or 0 for none (24)
  FILESD_LOG       1: a line on standard error for each answer (0)";

/// How the program is used.
pub fn tell_usage(rt: &HostRuntime) {
    let _ = eprintln!(rt; "filesd {VERSION}, a file server for a club\n{USAGE}");
}

/// Why the rows of the store are none to run over.
pub fn tell_rows(rt: &HostRuntime, fault: RowsFault) {
    let _ = match fault {
        RowsFault::Unread { index, fault } => {
            let why = why_unread(fault);
            eprintln!(rt; "filesd: row {index} of the store can't be read: {why}")
        }
        RowsFault::Broken { index, rule } => {
            let why = why_broken(rule);
            eprintln!(rt; "filesd: row {index} of the store breaks rule {rule}: {why}")
        }
        RowsFault::Found => eprintln!(rt;
            "filesd: the store has rows, and init and generate begin one that has none"
        ),
        RowsFault::Missing => eprintln!(rt; "filesd: the store has no rows: begin it by init"),
    };
}

fn why_unread(fault: RowFault) -> &'static str {
    match fault {
        RowFault::Kind => "there is no such kind of row",
        RowFault::Short { .. } => "it ends too early",
        RowFault::Long { .. } => "it goes on behind its last field",
        RowFault::Value { .. } => "a field has bytes that are no value",
        RowFault::Memory => "there is no memory for it",
    }
}

// The rules stand in docs/STORE.md.
fn why_broken(rule: u8) -> &'static str {
    match rule {
        1 => "its key comes twice, or the row of counters is missing",
        2 => "a number in it was never given, or a moment in it is yet to come",
        3 => "a user, group, node or upload that it names isn't there",
        4 => "its name comes twice",
        5 => "it leads to no root of its owner, or is a version that no file can have",
        6 => "it is no share or mount that may be made",
        7 => "there are too many of its kind, or it is a chunk of no number that one has",
        8 => "its quota is too large, or the versions of its owner take up more than they may",
        _ => "there is no such rule",
    }
}
