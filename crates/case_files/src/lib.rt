//! The cases of the suite: how their files are read, how a run is judged by its case, and how judgements are counted.
#![tactic(auto)]

mod case;
mod events;
mod faults;
mod judging;
mod keeping;
mod kept;
mod reading;
mod showing;
mod tally;
mod texts;

pub use case::{
    Case, Exchange, Fault, GONE, GRANTED, Outcome, RowFault, Run, Start, Step, StepKind, Unread,
    Written,
};
pub use judging::judge;
pub use kept::{Blob, Kept, KeptRow};
pub use reading::case_of;
pub use tally::{Judged, Tally};
