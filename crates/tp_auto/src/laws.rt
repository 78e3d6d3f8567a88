//! What holds of every automatic phase.
ghost use Rattle.tp_auto.specs.Laws.{AlwaysHasEnd};

/// Of every scenario that is run, after every list of steps that name what exists, in any order, with any mail lost or
/// delivered again, with timers, crashes and boots, there are no more automatic steps than the bound, however many may
/// be taken. After them the machine is quiet, and each transaction was submitted, decided, and settled so at each of
/// its servers.
pub fn phases_end()
    ensures { AlwaysHasEnd }
{}
