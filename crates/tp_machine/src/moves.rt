//! Whose step it is.
ghost use Rattle.std.specs.Prelude.{◌≡◌};
ghost use Rattle.tp_machine.specs.Moves.{moved_by};

use tp_types::{Actor, Mail, Step};

/// The actor whom a step moves, where these mails were sent: of a delivery the recipient of that mail. A mail that is lost moves
/// nobody, and so does one that was not sent.
pub fn moved_by(mails: &[Mail], taken: &Step) -> Option<Actor>
    ensures { result ≡ moved_by mails.now taken.now }
{
    match *taken {
        Step::Submit { txn } => Some(Actor::Coordinator(txn)),
        Step::Deliver { mail } => match mails.get(mail as usize) {
            None => None,
            Some(found) => Some(found.letter.to),
        },
        Step::Lose { .. } => None,
        Step::Publish { .. } => Some(Actor::Master),
        Step::Push { .. } => Some(Actor::Master),
        Step::Tick { .. } => Some(Actor::Authority),
        Step::Revoke { .. } => Some(Actor::Authority),
        Step::Timer { txn } => Some(Actor::Coordinator(txn)),
        Step::Crash { actor, .. } => Some(actor),
        Step::Boot { actor } => Some(actor),
    }
}
