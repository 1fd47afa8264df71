//! What a user's files take up, and that no quota is passed.

ghost use Rattle.nf_laws.specs.Charges.{ChargeIsSizeOfRoot, ChargesAreFew, ChargesLeaveOutTrash, QuotaExactly, QuotasAreKept, WritesAreCharged};

/// A user is charged for the bytes of every node that is the user's, but for what is in the trash, and for no other. The sum can be told,
/// however large the site.
#[tactic(auto, using(crate::proofs::Charging::charge_beside, crate::proofs::Charging::charge_few))]
pub fn charges_leave_out_trash()
    ensures owned { ChargesLeaveOutTrash }
    ensures few { ChargesAreFew }
{}

/// So a user's charge is the size of the user's root.
#[tactic(auto, using(crate::proofs::Weighing::charge_rooted))]
pub fn charge_is_size_of_root()
    ensures { ChargeIsSizeOfRoot }
{}

/// Whoever stores a body, the owner of what it is stored over, or of the folder that it is stored in, is charged for it, and no one else.
pub fn writes_are_charged()
    ensures { WritesAreCharged }
{}

/// No step takes a charge beyond its quota: one that rises is within it afterwards.
pub fn quotas_are_kept()
    ensures { QuotasAreKept }
{}

/// A request, and the End of a PUT, is refused for a quota exactly where every rule before passes it, and what it would put somewhere is
/// more than what that replaces and takes the charge of the owner there beyond the quota.
pub fn quota_exactly()
    ensures { QuotaExactly }
{}
