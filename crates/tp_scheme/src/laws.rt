//! The laws of moves and of what is gathered, each on a function that does nothing.
ghost use Rattle.tp_scheme.specs.Laws as laws;

/// At a beginning something is asked for, so that no query is passed over. A query is sent at once only under a scheme
/// that does not prove each, and the authority is asked only under one that does.
pub fn beginnings_act()
    ensures act { laws.BeginningsAct }
    ensures sends { laws.SendsUnproved }
    ensures asks { laws.AsksBeforeProved }
{}

/// Each other move comes under the schemes that it belongs to, and at its points alone.
pub fn moves_have_their_schemes()
    ensures probes { laws.ProbesIncremental }
    ensures validates { laws.ValidatesContinuous }
    ensures votes { laws.VotesIncremental }
    ensures rounds { laws.RoundsAtCommit }
    ensures decides { laws.DecidesAfterVotes }
{}

/// Each query leads to the next by the moves of its scheme, and the last to the decision by those of the end.
pub fn queries_lead_on()
    ensures next { laws.QueriesLeadOn }
    ensures last { laws.LastQueryDecides }
{}

/// The first proof of an administrator pins its version, and no later one changes that.
pub fn first_proofs_pin()
    ensures stay { laws.PinsStay }
    ensures first { laws.FirstProofsPin }
{}

/// A reading finds nothing newer exactly where no proof of an administrator under global consistency is below it; what
/// it finds is the version of the first such proof, and the greater one of the reading.
pub fn readings_find_the_first_below()
    ensures none { laws.NoneWhereNoneIsBelow }
    ensures found { laws.FindsTheFirstBelow }
{}
