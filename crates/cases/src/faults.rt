//! Why the rows of a run were refused, as cases say it.

use case_files::{Fault, RowFault};
use filesd::{RowsFault, Status};
use nf_rows::RowFault as Unread;

/// Why a run's rows were refused, if they were.
pub fn fault_of(status: Status) -> Option<Fault> {
    match status {
        Status::BadRows(fault) => told(fault),
        _ => None,
    }
}

fn told(fault: RowsFault) -> Option<Fault> {
    match fault {
        RowsFault::Unread { index, fault } => unread(index as u64, fault),
        RowsFault::Broken { index, rule } => Some(Fault::Rule {
            index: index as u64,
            rule: u64::from(rule),
        }),
        RowsFault::Found => Some(Fault::Found),
        RowsFault::Missing => Some(Fault::Missing),
    }
}

// Want of memory is no fault of the row.
fn unread(index: u64, fault: Unread) -> Option<Fault> {
    let why = match fault {
        Unread::Kind => RowFault::Kind,
        Unread::Short { at } => RowFault::Short { at: at as u64 },
        Unread::Long { at } => RowFault::Long { at: at as u64 },
        Unread::Value { at } => RowFault::Value { at: at as u64 },
        Unread::Memory => return None,
    };
    Some(Fault::Row { index, why })
}
