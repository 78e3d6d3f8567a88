//! Rounds of two-phase validation, in which the proofs of several servers are brought to one version of each administrator's policy.
//!
//! What is promised, with the contract that carries it:
//!
//! - A round starts with all its servers awaited (`Round::start`)
//! - A reply is kept exactly where it was awaited, and the answer says whether it was. It takes no memory.
//!   Whether it is awaited is told (`Round::reply`: `awaited`, `kept`; `Round::awaits`)
//! - A judgement answers exactly as defined, and leaves exactly the defined round. Where memory is refused the
//!   round is as before (`Round::judge`: `answer`, `next`, `memory`)
//! - The number of the round, and the kept proofs of queries 1 to 16 by query, copied or taken out of the round
//!   (`Round::rounds`, `Round::proofs`, `Round::take_proofs`)
//! - A round waits only where a reply is missing, or the reading of a master that is to be read. Where nothing
//!   is missing and every proof is true and has its administrator's target, the answer is that all is true;
//!   where some proof is of another version and none is under global consistency, it is an update
//!   (`rounds_are_answered`: `waits`, `all_true`, `updates`)
//! - An update names exactly the servers of which a proof has another version than the target, in their order,
//!   and wants of each the target of each administrator of which it has a proof, and of no other
//!   (`update_names_the_outdated`)
//! - Where all is true, every proof is true and has its administrator's target, so the proofs by query have one
//!   version of each administrator (`is_one_version`, in the definitions of `tp_model`). Where a proof is false,
//!   every proof has its target too, the proof is one of those kept, it is false, and no false one has a smaller
//!   query (`agreed_rounds_agree`: `all_true`, `least_false`)
//! - Where no proof is of an administrator under global consistency, rounds are never spent
//!   (`view_takes_two_rounds`: `never_spent`)
//! - What a round meets at the master is of the first administrator under global consistency that has a proof
//!   below the newest version, and names the least version among its proofs, with the newest and the place that
//!   were read. A round that meets nothing has no such proof (`rounds_meet_the_least`: `met`, `unmet`)
//! - Where rounds are spent, the answer has what each earlier round met and what this one met, and these are as
//!   many as may be. An update keeps what was met, and adds what this round met (`spent_rounds_have_all_mets`:
//!   `spent`, `kept`)
//! - Whatever is replied and judged in whatever order, where each reply that is kept after an update is of the
//!   administrators that the update named for its server, with these versions, where the master is read if a proof
//!   is under global consistency, and each time after the proofs: what earlier rounds met is less than the limit,
//!   the number of the round is one or two more, and a round that meets nothing is updated only if it is the first
//!   (`rounds_are_counted`)
//! - Where no verdict of a reply is under global consistency, and replies after an update are as just said, there
//!   are at most two rounds, and only the first is updated (`view_takes_two_rounds`: `two_rounds`)
//! - Where besides every verdict that is replied is under global consistency, the number of the round is one more than
//!   the rounds that were met, and the rounds are spent exactly where nothing is missing, a server is out of date, and
//!   the round is the last that may be (`global_rounds_are_met`: `met`, `spent`)
//! - A round that is judged again with the same reading answers the same, where it was not updated; after an
//!   update it waits (`judging_again_is_safe`: `same`, `waits`)
//! - Of each query from 1 to 16 the proofs by query are those that were replied, in their order; where the
//!   replies have one proof of each query up to a number and no other, so have the proofs by query, in order
//!   (`proofs_go_by_query`: `kept`, `ordered`)
//!
//! `start` asks that the limit is from 1 to 16, and gives each administrator the same level; definitions and laws
//! speak of a level for each. Of a server that stands twice among the given ones two replies are awaited. The
//! limit counts the rounds that met a newer version at the master, not all rounds. The premise on replies after
//! an update is needed: replies with other versions are brought together again, in a third round and later ones.
#![tactic(auto)]

mod aim;
mod laws;
mod replies;
mod round;

pub use laws::{
    agreed_rounds_agree, global_rounds_are_met, judging_again_is_safe, proofs_go_by_query,
    rounds_are_answered, rounds_are_counted, rounds_meet_the_least, spent_rounds_have_all_mets,
    update_names_the_outdated, view_takes_two_rounds,
};
pub use round::{Judged, Round, Target, Wanted};
