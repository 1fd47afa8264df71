//! What a step changes, told as a list.

ghost use Rattle.nf_laws.specs.Tells.{ChangesTell};

/// The list of a step's changes makes the tables after it of those before it, has no change that changes nothing, is
/// empty exactly where the step changes no row, and never drops the meta row.
#[tactic(auto, using(crate::proofs::Telling::changes_tell))]
pub fn changes_tell()
    ensures { ChangesTell }
{}
