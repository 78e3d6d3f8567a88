//! What a check says of a history.
ghost use Rattle.tp_check.specs.OfHistory as of_history;

/// A check with the clock and the revocations of a place of a history, in whatever order these are given, is of that history: what is
/// valid is what is valid there, a transaction holds what it holds there, and just those verdicts are certified whose certificates
/// pass and use only what the transaction presents.
pub fn checks_are_of_history()
    ensures valid { of_history.IsValidThere }
    ensures held { of_history.IsHeldThere }
    ensures certified { of_history.IsCertifiedThere }
{}
