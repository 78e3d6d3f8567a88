//! The authority: the clock, and which credentials are revoked.
ghost use Rattle.std.specs.Prelude.{◌≡◌, ◌+◌, ◌<◌, ◌++◌, IfOk};
ghost use Rattle.std.specs.Option.{option_to_list};
ghost use Rattle.tp_types.specs.Effect.{Gives};
ghost use Rattle.tp_offices.specs.Authority as office;

use std::alloc::Global;
use tp_types::{
    Actor, AskRequest, Body, CredId, Letter, List, Mail, NoMemory, Reaction, Scenario, Spare,
    TellReply, ignored, none_for_each, sent_alone,
};

/// A clock stays below this, in ticks.
pub const CLOCK_END: u64 = 1 << 63;

/// The authority's state.
/// It has a place for each credential, and no list: revoking takes no memory, and what is told goes by number,
/// each once.
#[derive(Drop)]
pub struct Authority {
    pub clock: u64,
    /// A place for each credential of the scenario, which has its id once it is revoked. So the revocations go by number, and
    /// there is room for all.
    pub revoked: List<Option<CredId>>,
}

impl Authority {
    /// The authority as it stands before the first step.
    pub fn opened(alloc: Global, scenario: &Scenario) -> Result<Authority, NoMemory>
        ensures { IfOk result (λ made. made ≡ office.opening scenario.now) }
    {
        Ok(Authority {
            clock: scenario.clock,
            revoked: none_for_each(alloc, scenario.creds.len())?,
        })
    }

    /// Moves the clock.
    pub fn tick(&mut self, by: u64)
        requires { self.old.clock + by < office.clock_end }
        ensures { self.new ≡ office.after_tick by self.old }
    {
        self.clock += by;
    }

    /// Revokes a credential. One that is revoked stays so; one that is not of the scenario changes nothing.
    pub fn revoke(&mut self, cred: CredId)
        ensures { self.new ≡ office.after_revocation cred self.old }
    {
        self.revoked.put(cred.0 as usize, Some(cred));
    }

    /// What the authority does on receipt of a mail. Its state stays.
    pub fn receive(&self, spare: &mut Spare<Letter>, mail: &Mail) -> Result<Reaction, NoMemory>
        ensures { IfOk result (λ reaction.
            Gives (office.authority_row self.now mail.now) self.now reaction) }
    {
        match &mail.letter.body {
            Body::Ask(request) => self.tells(spare, *request),
            _ => Ok(ignored(spare.alloc())),
        }
    }

    fn tells(&self, spare: &mut Spare<Letter>, request: AskRequest) -> Result<Reaction, NoMemory>
        ensures { IfOk result (λ reaction.
            Gives (office.tells self.now request) self.now reaction) }
    {
        let told = TellReply {
            txn: request.txn,
            turn: request.turn,
            clock: self.clock,
            revoked: revocations(spare.alloc(), self.revoked.as_slice())?,
        };
        let letter = Letter {
            from: Actor::Authority,
            to: Actor::Coordinator(request.txn),
            body: Body::Tell(told),
        };
        sent_alone(spare, letter)
    }
}

fn note(creds: &mut List<CredId>, place: Option<CredId>) -> Result<(), NoMemory>
    ensures { IfOk result (λ _. creds.new ≡ creds.old ++ option_to_list place) }
{
    if let Some(cred) = place {
        creds.push(cred)?;
    }
    Ok(())
}

fn revocations(alloc: Global, places: &[Option<CredId>]) -> Result<List<CredId>, NoMemory>
    ensures { IfOk result (λ creds. creds ≡ office.revocations places.now) }
{
    let mut creds = List::new(alloc);
    for place in places {
        note(&mut creds, *place)?;
    }
    Ok(creds)
}
