//! Laws of the machine's steps, each of every scenario and every state.
ghost use Rattle.tp_machine.specs.Moves.{NumbersDiffer, StepsAreMoves, StepsForceOneRecord, StepsLeaveOthers};

/// A step does one move to the actor whom it moves and to its log, and leaves every other actor as it is. Its body is empty: a
/// law that only a definition states could stay unproved.
pub fn steps_move_one_actor()
    ensures moves { StepsAreMoves }
    ensures others { StepsLeaveOthers }
    ensures logs { StepsForceOneRecord }
    ensures numbers { NumbersDiffer }
{}
