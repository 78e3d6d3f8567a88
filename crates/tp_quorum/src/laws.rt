//! What holds of every run of a replicated master.
ghost use Rattle.tp_quorum.specs.Histories.{ReachesBound, all_lost, back, fair, made_up, stale, three};
ghost use Rattle.tp_quorum.specs.Laws.{AlwaysHasEnd, IsAlwaysOneMaster};
ghost use Rattle.tp_quorum.specs.Machine.{after};
ghost use Rattle.tp_quorum.specs.OneMaster.{OneMaster};

/// Of every replicated master with at least one replica, after every list of steps that name what exists, in any order, with
/// any mail lost or delivered again, with crashes of any replicas at any call of a log write, boots and timers, the facts
/// are those of one master.
pub fn one_master()
    ensures { IsAlwaysOneMaster }
{}

/// What one master is may be read by four short histories. A reading that begins while a version is published may end with
/// the version before it. A reading may not end with less than a publication, or a reading, that had ended when it began,
/// nor with what was never published.
pub fn what_one_master_refuses()
    ensures fair { OneMaster fair }
    ensures stale { OneMaster stale → ⊥ }
    ensures back { OneMaster back → ⊥ }
    ensures made_up { OneMaster made_up → ⊥ }
{}

/// Of every replicated master with at least one replica, after every list of steps that name what exists, there are no more
/// automatic steps than the bound, however many may be taken. After them nothing is left to do, and every operation has
/// ended.
pub fn comes_to_rest()
    ensures { AlwaysHasEnd }
{}

/// The bound is reached: where a reading runs, its requests are lost and all three replicas are down.
pub fn bound_is_reached()
    ensures { ReachesBound (after three all_lost) }
{}
