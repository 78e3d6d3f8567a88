//! What a coordinator does next, and what it does with a reading of the master.
ghost use Rattle.std.specs.Prelude.{◌≡◌, replicate};
ghost use Rattle.tp_model.specs.Levels.{is_global};
ghost use Rattle.tp_model.specs.Limits.{admins_limit};
ghost use Rattle.tp_model.specs.Words.level as level_of;
ghost use Rattle.tp_scheme.specs.Gathered as gathered_rule;
ghost use Rattle.tp_scheme.specs.Moves as rule;

use tp_scheme::{Gathered, Move, Point, next_move};
use tp_types::{Cause, Level, Reading, Scheme};

/// What a transaction of so many queries does at a point.
pub fn choose_move(scheme: Scheme, level: Level, queries: u32, point: Point) -> Move
    ensures { result ≡ rule.next_move scheme (is_global level) queries point }
{
    next_move(scheme, level, queries, point)
}

/// The first version that was used and is below the master's.
pub fn find_newer(gathered: &Gathered, reading: &Reading) -> Option<Cause>
    ensures { result ≡ gathered_rule.older
        (replicate admins_limit level_of.Global) gathered.now.proofs reading.now }
{
    gathered.older(reading)
}
