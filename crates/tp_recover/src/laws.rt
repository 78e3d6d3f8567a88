//! The laws of what is kept of a log, on a function that does nothing.
ghost use Rattle.tp_recover.specs.Laws as laws;

/// What is kept of a log whose records are of transactions of the scenario is what the log says, and stays so with each
/// record.
pub fn logs_are_kept()
    ensures step { laws.StepSaysLog }
    ensures whole { laws.KeptSaysLog }
{}

/// What is kept of a log is what its records that are no boots come to, but for the epoch, which is one more than the boots.
/// What a coordinator has decided stands in those records too.
pub fn boots_stand_apart()
    ensures kept { laws.KeptApart }
    ensures decided { laws.DecidedApart }
{}
