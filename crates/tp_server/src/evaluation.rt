//! What the rows that evaluate rest on.
ghost use Rattle.tp_server.specs.Evaluation.{EvaluatesRight};

/// A verdict that is made with a staple, whose clock and revocations are those of its place in a history, is right there: it has a
/// rule exactly where its version allows the query on what the transaction holds at that place, and then its certificate is good
/// there. So it is a true verdict exactly where it has a rule, if it is of the transaction's query at its server.
pub fn evaluations_are_right()
    ensures { EvaluatesRight }
{}
