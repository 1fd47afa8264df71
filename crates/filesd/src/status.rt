//! How a run ends.

ghost use Rattle.std.specs.Prelude.{◌≡◌};
ghost use Rattle.filesd.specs.Doors.{status_of_work};
ghost use Rattle.filesd.specs.Session.{status_of as status_by};
ghost use Rattle.filesd.specs.Statuses.{code_of, word_of};

use nf_rows::RowFault;
use nf_server::Worked;
use nf_session::Ended;

/// Why the rows that a keeper has are none to run over.
#[derive(Clone, Copy, PartialEq, Eq)]
pub enum RowsFault {
    /// The row of that index can't be read.
    Unread { index: usize, fault: RowFault },
    /// The row of that index breaks the rule of that number, and no row breaks one of a smaller number.
    Broken { index: usize, rule: u8 },
    /// There are rows where there should be none.
    Found,
    /// There are none where there should be some.
    Missing,
}

/// How a run ended.
#[derive(Clone, Copy, PartialEq, Eq)]
pub enum Status {
    /// The command was done.
    Done,
    /// The input failed, and counted it.
    ReadFault,
    /// The output failed, and counted it.
    WriteFault,
    /// The keeper failed before anything was served, and counted it.
    StoreFault,
    /// The rows that the keeper has are none to run over.
    BadRows(RowsFault),
    /// The words are no command.
    Words,
    /// The bytes were no message, or ended inside one.
    BadMessage,
    /// A file that was being sent broke off, since the keeper had not all of it.
    Cut,
    /// A door failed, and counted it.
    DoorFault,
    /// There was no memory.
    Memory,
    /// The run has no room for two more entries.
    RunFull,
    /// `MAX_MESSAGES` messages were answered, and none ended the session.
    Budget,
}

impl Status {
    /// The exit status of the program.
    pub fn code(self) -> u8
        ensures { result ≡ code_of self }
    {
        match self {
            Status::Done => 0,
            Status::ReadFault => 1,
            Status::WriteFault => 2,
            Status::StoreFault => 3,
            Status::BadRows(_) => 4,
            Status::Words => 5,
            Status::BadMessage => 6,
            Status::Cut => 7,
            Status::DoorFault => 8,
            Status::Memory => 9,
            Status::RunFull => 10,
            Status::Budget => 11,
        }
    }

    /// What the program says of it.
    pub fn word(self) -> &'static str
        ensures { result.now ≡ word_of self }
    {
        match self {
            Status::Done => "done",
            Status::ReadFault => "readfault",
            Status::WriteFault => "writefault",
            Status::StoreFault => "storefault",
            Status::BadRows(_) => "badrows",
            Status::Words => "words",
            Status::BadMessage => "badmessage",
            Status::Cut => "cut",
            Status::DoorFault => "doorfault",
            Status::Memory => "memory",
            Status::RunFull => "runfull",
            Status::Budget => "budget",
        }
    }
}

/// The status of a session's end.
pub(crate) fn status_of(end: Option<Ended>) -> Status
    ensures { result ≡ status_by end }
{
    match end {
        None => Status::Budget,
        Some(Ended::Closed) => Status::Done,
        Some(Ended::BadMessage) => Status::BadMessage,
        Some(Ended::RunFull) => Status::RunFull,
        Some(Ended::Cut(_)) => Status::Cut,
        Some(Ended::ReadFault) => Status::ReadFault,
        Some(Ended::WriteFault) => Status::WriteFault,
        Some(Ended::Memory) => Status::Memory,
    }
}

/// The status of the workers' end.
pub(crate) fn status_of_workers(worked: Worked) -> Status
    ensures { result ≡ status_of_work worked }
{
    match worked {
        Worked::All => Status::Done,
        Worked::DoorFault => Status::DoorFault,
        Worked::RunFull => Status::RunFull,
        Worked::Memory => Status::Memory,
    }
}
