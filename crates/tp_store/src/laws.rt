//! The laws of a store, each on a function that does nothing.
ghost use Rattle.tp_store.specs.Laws as laws;

/// A transaction reads what its last query has written of an item, and a write changes nothing that is kept of another
/// item or of another transaction.
pub fn own_writes_are_read()
    ensures own { laws.OwnWritesAreRead }
    ensures items { laws.OtherItemsStay }
    ensures transactions { laws.OtherTransactionsStay }
{}

/// Of the writes outside their ranges the one of the least query is answered, and None exactly where there is none.
pub fn first_outside_is_least()
    ensures { laws.FirstOutsideIsLeast }
{}

/// Applying a transaction's writes gives each item what setting it write by write gives, where writes come by query; no two of
/// them are ever of one item.
pub fn writes_are_applied_in_order()
    ensures order { laws.AppliedInOrder }
    ensures apart { laws.StayApart }
{}
