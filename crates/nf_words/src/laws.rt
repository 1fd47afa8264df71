//! Laws of the step and of legal histories. The functions do nothing: each stands for the fact that it ensures.

ghost use Rattle.nf_words.specs.Laws.{RefusedBeginsKeep, RefusedEndsKeep, FailuresKeep, ClosingsKeep, EndsFree, FailedEndsFree, GrantsTicket, OthersKeep, MarksAnswer, FirstRuleRefuses, AllowedByAll, SeatsDiffer};
ghost use Rattle.nf_words.specs.declared.history.Outcome.TheVariants.{Sent, Gone};

/// What is refused, or failed, changes no row; a refused Begin changes no ticket.
pub fn refusals_keep()
    ensures begin { RefusedBeginsKeep }
    ensures end { RefusedEndsKeep }
    ensures failure { FailuresKeep }
{}

/// An End frees its seat, and changes no row where it brings no body.
pub fn ends_free()
    ensures ticket { EndsFree }
    ensures failed { FailedEndsFree }
    ensures sent { ClosingsKeep Sent }
    ensures gone { ClosingsKeep Gone }
{}

/// A granted Begin leaves its seat a ticket, so that its End may come.
pub fn grants_ticket()
    ensures { GrantsTicket }
{}

/// An entry touches no ticket of another seat.
pub fn others_keep()
    ensures { OthersKeep }
{}

/// An entry is answered as its mark says.
pub fn marks_answer()
    ensures { MarksAnswer }
{}

/// Where several rules hold, the first in their order is answered.
pub fn rules_in_order()
    ensures first { FirstRuleRefuses }
    ensures none { AllowedByAll }
{}

/// A seat has at most one ticket.
pub fn seats_differ()
    ensures { SeatsDiffer }
{}
