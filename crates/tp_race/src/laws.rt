//! What holds of every race.
ghost use Rattle.tp_race.specs.Replayed.{RacesAreReplayed};
ghost use Rattle.tp_race.specs.Unstopped.{NoneIsStopped};

/// No script of a race is stopped by a step that the cluster refuses: scenarios have no scripts that can be. It does not
/// show as a call answers, but once all passes are together.
pub fn no_script_is_stopped()
    ensures { NoneIsStopped }
{}

/// The steps that a race prints can be listed where there are at most 100,000: the scenario with these steps keeps
/// every rule, each printed spelling is read as its step and as no other, and the JSON of the race with all spellings
/// at `steps` is read as this scenario. What `run` promises of it is the report with which the text of the race ends. A
/// longer list cannot be given to `run`.
///
/// Its body is empty: a law that only a definition states could stay unproved.
pub fn races_are_replayed()
    ensures { RacesAreReplayed }
{}
