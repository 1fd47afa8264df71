//! What follows from the definitions. Each function does nothing, and its clause is the law.

ghost use Rattle.nf_outside.specs.Lent.{takes};
ghost use Rattle.filesd.specs.Next.{BatchBeginsWhole, LeftIsThere, OpensBehindAnswers, OpensOnward, ServeBeginsWhole, StayWhole};
ghost use Rattle.filesd.specs.OneFile.{HelloIsServed};
ghost use Rattle.filesd.specs.Together.{ShareOneHistory};

use nf_keeper::Keeper;
use nf_outside::{Clock, Dice};
use nf_server::Door;

/// The demonstration file is one that a run serves its owner: what `run` says of one GET holds of it.
#[tactic(auto, using(crate::proofs::Shown::hello_is_file))]
pub fn hello_is_served()
    ensures { HelloIsServed }
{}

/// The sessions of all workers of a `serve` stand in the history of the site that `run` hands out: the entries of each, with the answers
/// that were given there, in their order; those of one worker one behind the other, each behind all that the worker had seen; and each
/// seat's entries there are those that its sessions made. Where the run was full, that history has 262,143 entries at least, and the turn
/// that found it full had seen a front of it that leaves no room.
pub fn sessions_share_one_history<K: Keeper, D: Door, C: Clock, Q: Dice>()
    ensures { ShareOneHistory K.Keeper D.Source.Ends D.Sink.Ends (takes C.reads Q.draws) D.Door }
{}

/// What a run leaves can be opened again: no row is found that can't be read or that breaks a rule, and the tables are those that the
/// run's last entry left.
#[tactic(auto, using(crate::proofs::Whole::opens_onward))]
pub fn what_is_left_opens_again()
    ensures { OpensOnward }
{}

/// So can what a store tells at an answer, also where the run was cut off behind it: the tables are those that the answer's steps left. What
/// was acknowledged by then is in them.
#[tactic(auto, using(crate::proofs::Behind::opens_behind))]
pub fn what_is_acknowledged_opens_again()
    ensures { OpensBehindAnswers }
{}

/// What was acknowledged is there in the next run: its opening's rows are the tables that this run's last entry left, and the bytes of each
/// piece that they name are there. So it is in every later run, until a step of the rules changes it.
pub fn what_is_left_is_there()
    ensures { LeftIsThere }
{}

/// A session over what is undamaged finds nothing damaged at any of its messages, and leaves it so.
pub fn sessions_stay_whole<C: Clock, Q: Dice>()
    ensures { StayWhole (takes C.reads Q.draws) }
{}

/// The session of a `batch` over a safe store, or over one without rows, begins so.
pub fn batch_begins_whole<C: Clock, Q: Dice>()
    ensures { BatchBeginsWhole (takes C.reads Q.draws) }
{}

/// Each session of a `serve` over a safe store begins so.
pub fn serve_begins_whole<K: Keeper, D: Door, C: Clock, Q: Dice>()
    ensures { ServeBeginsWhole K.Keeper D.Source.Ends D.Sink.Ends (takes C.reads Q.draws) D.Door }
{}
