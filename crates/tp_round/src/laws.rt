//! What follows from the judgement of rounds, whatever is replied and read.
ghost use Rattle.tp_round.specs.Laws as laws;

/// An update names exactly the servers that are out of date, and wants of each the target of each administrator of which it has a
/// proof, and of no other.
pub fn update_names_the_outdated()
    ensures { laws.UpdateNamesTheOutdated }
{}

/// A round waits only where a reply is missing, or the reading of the master. Where nothing is missing and every proof is true and of its
/// administrator's target, all is true; where some proof is of another version, and none is under global consistency, servers are
/// named.
pub fn rounds_are_answered()
    ensures waits { laws.WaitsForReplies }
    ensures all_true { laws.AllTrueWhereAgreed }
    ensures updates { laws.UpdatesTheOutdated }
{}

/// Where all is true, every proof is true and has its administrator's target, so the proofs of an administrator have one version. Where a
/// proof is false, the versions are so too, and of the false proofs it is the one of least query.
pub fn agreed_rounds_agree()
    ensures all_true { laws.AgreesWhereAllTrue }
    ensures least_false { laws.FalseIsLeast }
{}

/// Without proofs under global consistency rounds are never spent. Where besides each reply after an update has the
/// versions that were named for its server, there are at most two rounds, and only the first is updated.
pub fn view_takes_two_rounds()
    ensures never_spent { laws.NeverSpentUnderView }
    ensures two_rounds { laws.TwoRoundsUnderView }
{}

/// What a round met at the master is of the first administrator under global consistency that has a proof below the
/// newest version, and names the least version among its proofs, with the newest and the place that were read. It met
/// nothing only where there is no such proof.
pub fn rounds_meet_the_least()
    ensures met { laws.MeetsTheLeast }
    ensures unmet { laws.MeetsWhatIsNewer }
{}

/// Rounds are spent where as many were met as may be, and the answer has what each of them met, this one too. An update
/// keeps what earlier rounds met and adds what this one met.
pub fn spent_rounds_have_all_mets()
    ensures spent { laws.SpentHasAllMets }
    ensures kept { laws.UpdateKeepsMets }
{}

/// Where each reply after an update has the versions that were named for its server, and the master is read if a proof is
/// under global consistency, and each time after the proofs: the rounds that met a newer version and went on are fewer
/// than the limit, the number of the present one is one or two more, and a round that meets nothing is updated only if it
/// is the first.
pub fn rounds_are_counted()
    ensures { laws.RoundsCountMets }
{}

/// Where besides every verdict that is replied is of an administrator under global consistency, each round before the present one
/// met a newer version: its number is one more than the rounds that were met, and the rounds are spent exactly where no reply
/// is missing, a server is out of date, and the round is the last that may be.
pub fn global_rounds_are_met()
    ensures met { laws.MeetsInEachRound }
    ensures spent { laws.SpentAtTheLimit }
{}

/// A round that is judged again with the same reading answers the same; after an update it waits.
pub fn judging_again_is_safe()
    ensures same { laws.JudgesTheSameAgain }
    ensures waits { laws.WaitsAfterUpdate }
{}

/// Proofs that are put in order of their queries are those that were replied: each query's stay, and where each has one they are one
/// for each, in order.
pub fn proofs_go_by_query()
    ensures kept { laws.KeepsEachQuery }
    ensures ordered { laws.GoesByQuery }
{}
