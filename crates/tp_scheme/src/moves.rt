//! The table of moves: what a transaction does at each point that it comes to, by its scheme and level.
ghost use Rattle.std.specs.Prelude.{◌≡◌};
ghost use Rattle.tp_model.specs.Levels.{is_global as is_global_level};
ghost use Rattle.tp_scheme.specs.Moves as rule;

use tp_model::is_global;
use tp_types::{Level, Scheme};

/// A point that a transaction comes to. Its queries are counted from 1.
#[derive(Clone, Copy)]
pub enum Point {
    /// Every query before this one is done with. One past the last says that all are.
    Begun { query: u32 },
    /// The authority has answered what was asked before the query.
    Stapled { query: u32 },
    /// The query has run, and was not denied where it was evaluated.
    Ran { query: u32 },
    /// The master was read after the query, and nothing newer was found.
    Read { query: u32 },
    /// The queries up to this one were evaluated together, and all is true.
    Validated { query: u32 },
    /// All servers have voted YES; where they evaluated too, all is true.
    Voted,
    /// The master was read after the votes, and nothing newer was found.
    VoteRead,
}

/// What is done next.
#[derive(Clone, Copy, PartialEq)]
pub enum Move {
    /// The authority is asked, and then the query is sent with its answer.
    Ask,
    /// The query is sent to its server.
    SendQuery,
    /// The master is asked for the newest versions.
    Probe,
    /// The queries so far are evaluated together, in rounds.
    Validate,
    /// The servers evaluate all queries and vote, in rounds.
    CommitRounds,
    /// The servers vote without evaluation.
    Votes,
    /// The transaction commits.
    Decide,
    /// The next query begins.
    Following,
}

fn before_query(scheme: Scheme) -> Move
    ensures { result ≡ rule.before_query scheme }
{
    match scheme {
        Scheme::Deferred | Scheme::Continuous => Move::SendQuery,
        Scheme::Punctual | Scheme::Incremental => Move::Ask,
    }
}

fn after_queries(scheme: Scheme) -> Move
    ensures { result ≡ rule.after_queries scheme }
{
    match scheme {
        Scheme::Deferred | Scheme::Punctual | Scheme::Continuous => Move::CommitRounds,
        Scheme::Incremental => Move::Votes,
    }
}

fn after_run(scheme: Scheme, reads: bool) -> Move
    ensures { result ≡ rule.after_run scheme reads }
{
    match scheme {
        Scheme::Deferred | Scheme::Punctual => Move::Following,
        Scheme::Incremental => { if reads { Move::Probe } else { Move::Following } }
        Scheme::Continuous => Move::Validate,
    }
}

fn after_votes(scheme: Scheme, reads: bool) -> Move
    ensures { result ≡ rule.after_votes scheme reads }
{
    match scheme {
        Scheme::Deferred | Scheme::Punctual | Scheme::Continuous => Move::Decide,
        Scheme::Incremental => { if reads { Move::Probe } else { Move::Decide } }
    }
}

/// What a transaction of so many queries does at a point, by its scheme (Iskander et al. 2011). It takes no memory.
pub fn next_move(scheme: Scheme, level: Level, queries: u32, point: Point) -> Move
    ensures { result ≡ rule.next_move scheme (is_global_level level) queries point }
{
    match point {
        Point::Begun { query } => {
            if query <= queries {
                before_query(scheme)
            } else {
                after_queries(scheme)
            }
        }
        Point::Stapled { .. } => Move::SendQuery,
        Point::Ran { .. } => after_run(scheme, is_global(level)),
        Point::Read { .. } | Point::Validated { .. } => Move::Following,
        Point::Voted => after_votes(scheme, is_global(level)),
        Point::VoteRead => Move::Decide,
    }
}
