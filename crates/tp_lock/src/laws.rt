//! The laws of a table of locks, each on a function that does nothing.
ghost use Rattle.tp_lock.specs.Laws as laws;

/// Ages order the owners: of two owners one is the elder, nobody is older than itself, and who is older than an older one is
/// older. A request at the list of an item is answered by the first of its four cases that fits: the owner holds a lock that
/// serves; no entry conflicts; each that conflicts is younger; one is older. Who is granted a lock there holds one that serves,
/// and no request takes it away.
pub fn requests_are_answered()
    ensures ages { laws.AgesAreOrdered }
    ensures itself { laws.NobodyIsOlderThanItself }
    ensures chains { laws.OlderThanTheOlder }
    ensures cases { laws.RequestsAreAnswered }
    ensures held { laws.GrantedIsHeld }
    ensures kept { laws.KeptByRequests }
{}

/// In every list of a table that its calls have made, a lock is held exactly where no earlier entry conflicts with it,
/// and an entry that waits does so for younger owners only. So two locks that are held never conflict.
pub fn tables_are_orderly()
    ensures opened { laws.OpeningIsOrderly }
    ensures requested { laws.RequestsKeepOrder }
    ensures released { laws.ReleasesKeepOrder }
    ensures taken { laws.TakingKeepsOrder }
    ensures exclusive { laws.OrderExcludes }
{}

/// After a release the owner has no entry, and others hold what they held. Their entries keep owner, age, mode and order,
/// and only one that waited may be held now: each that is clear is, and these are the grants, by item and then in the
/// order of the list. A list in which the owner had no entry stays as it was.
pub fn releases_grant()
    ensures gone { laws.OwnersAreGone }
    ensures kept { laws.KeptByReleases }
    ensures others { laws.OthersStay }
    ensures clear { laws.ClearIsHeld }
    ensures grants { laws.GrantsAreThose }
    ensures held { laws.GrantsAreHeld }
    ensures by_item { laws.GrantsGoByItem }
    ensures absent { laws.AbsentChangesNothing }
{}
