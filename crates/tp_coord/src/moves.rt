//! What a coordinator's transaction does at a point, by the table of moves.
ghost use Rattle.std.specs.Prelude.{◌≡◌, IfOk};
ghost use Rattle.tp_types.specs.Effect.{Gives};
ghost use Rattle.tp_model.specs.Demand as demand;
ghost use Rattle.tp_coord.specs.Row as row;

use crate::coordinator::{Coordinator, Phase};
use tp_model::{VIEW_ROUNDS, reads_master};
use tp_scheme::{Move, Point, next_move};
use tp_types::{Letter, Level, NoMemory, Reaction, Scenario, Spare, Transaction, ignored};

impl Coordinator {
    /// What the transaction does at a point, by the table of moves.
    pub(crate) fn move_at(&self, scenario: &Scenario, at: Point) -> Move
        ensures { result ≡ row.move_at scenario.now self.now at }
    {
        match scenario.txns.get(self.txn.0 as usize) {
            None => Move::Following,
            Some(txn) => move_of(scenario, at, txn),
        }
    }

    /// What is done at a point that was passed: where the table says so the next query begins.
    fn move_after(&self, scenario: &Scenario, at: Point) -> Move
        ensures { result ≡ row.move_after scenario.now self.now at }
    {
        match self.move_at(scenario, at) {
            Move::Following => {
                let query = next_at(at);
                self.move_at(scenario, Point::Begun { query })
            }
            next => next,
        }
    }

    /// What is done at a point that was passed, if anything is. It is asked before anything is gained.
    #[inline(always)]
    pub(crate) fn move_made(&self, scenario: &Scenario, at: Point) -> Option<Move>
        ensures { result ≡ row.move_made scenario.now self.now at }
    {
        let next = self.move_after(scenario, at);
        let is_made = match next {
            Move::Following => false,
            Move::SendQuery => self.home_of(scenario, next_at(at)).is_some(),
            _ => true,
        };
        if is_made { Some(next) } else { None }
    }

    /// The transaction goes on by a move, after so many rounds where all have voted.
    #[inline(always)]
    pub(crate) fn makes(
        &mut self,
        spare: &mut Spare<Letter>,
        scenario: &Scenario,
        at: Point,
        next: Move,
        rounds: u32,
    ) -> Result<Reaction, NoMemory>
        ensures { IfOk result (λ reaction.
            Gives (row.makes scenario.now self.old at rounds next) self.new reaction) }
    {
        let alloc = spare.alloc();
        match next {
            Move::SendQuery => self.sends_next(spare, scenario, next_at(at), None),
            Move::Ask => {
                let query = next_at(at);
                self.asks_in(spare, Phase::Stapling { query })
            }
            Move::Probe => self.probes(spare, probing_at(at)),
            Move::Validate => self.validates(spare, scenario, number_at(at)),
            Move::CommitRounds => self.begins_rounds(spare, scenario),
            Move::Votes => self.asks_votes(alloc),
            Move::Decide => self.commits(alloc, rounds),
            Move::Following => Ok(ignored(alloc)),
        }
    }

    pub(crate) fn level_at(&self, scenario: &Scenario) -> Level
        ensures { result ≡ row.level_at scenario.now self.now }
    {
        match scenario.txns.get(self.txn.0 as usize) {
            None => Level::View,
            Some(txn) => level_read(scenario, txn),
        }
    }

    pub(crate) fn limit_at(&self, scenario: &Scenario) -> u32
        ensures { result ≡ row.limit_at scenario.now self.now }
    {
        match scenario.txns.get(self.txn.0 as usize) {
            None => VIEW_ROUNDS,
            Some(txn) => most_rounds(scenario, txn),
        }
    }
}

/// The level that a transaction is run at: global where it reads the master.
fn level_read(scenario: &Scenario, txn: &Transaction) -> Level
    ensures { result ≡ row.level_read scenario.now txn.now }
{
    if reads_master(scenario, txn) {
        Level::Global
    } else {
        Level::View
    }
}

/// In how many rounds a newer version may be met at the master.
fn most_rounds(scenario: &Scenario, txn: &Transaction) -> u32
    ensures { result ≡ demand.most_rounds scenario.now txn.now }
{
    if reads_master(scenario, txn) {
        txn.rounds
    } else {
        VIEW_ROUNDS
    }
}

/// The number of a transaction's queries, as far as 32 bits count.
fn query_count(txn: &Transaction) -> u32
    ensures { result ≡ row.query_count txn.now }
{
    match u32::try_from(txn.queries.len()) {
        Ok(count) => count,
        Err(_) => u32::MAX,
    }
}

/// What a transaction does at a point.
fn move_of(scenario: &Scenario, at: Point, txn: &Transaction) -> Move
    ensures { result ≡ row.move_of scenario.now at txn.now }
{
    let level = level_read(scenario, txn);
    next_move(txn.scheme, level, query_count(txn), at)
}

/// The number of the query that a point is of; 0 after the votes.
fn number_at(at: Point) -> u32
    ensures { result ≡ row.number_at at }
{
    match at {
        Point::Begun { query }
        | Point::Stapled { query }
        | Point::Ran { query }
        | Point::Read { query }
        | Point::Validated { query } => query,
        Point::Voted | Point::VoteRead => 0,
    }
}

/// The number of the query after it.
fn next_at(at: Point) -> u32
    ensures { result ≡ row.next_at at }
{
    number_at(at).saturating_add(1)
}

/// What awaits the master's answer: after a query, or after the votes.
fn probing_at(at: Point) -> Phase
    ensures { result ≡ row.probing_at at }
{
    match at {
        Point::Voted => Phase::VoteProbing,
        _ => Phase::Probing {
            query: number_at(at),
        },
    }
}
