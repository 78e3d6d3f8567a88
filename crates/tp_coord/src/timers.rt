//! A coordinator's timer: the request that is outstanding is sent again, in its own turn, as it was sent before but for the age of
//! a first query. So whichever of its replies comes first is used, and no other.
ghost use Rattle.std.specs.Prelude.{◌≡◌, IfOk};
ghost use Rattle.tp_types.specs.Effect.{Gives};
ghost use Rattle.tp_coord.specs.Row as row;

use crate::coordinator::{Coordinator, Phase};
use tp_types::{Letter, List, NoMemory, Reaction, Scenario, Spare, Staple};

impl Coordinator {
    /// Sends the outstanding request again, to each from whom a reply is awaited. Before the submission, and when all servers
    /// have acknowledged the end, nothing is sent.
    pub fn timer(
        &self,
        spare: &mut Spare<Letter>,
        scenario: &Scenario,
    ) -> Result<Reaction, NoMemory>
        ensures { IfOk result (λ reaction.
            Gives (row.timer_row scenario.now self.now) self.now reaction) }
    {
        Ok(Reaction {
            append: None,
            letters: self.repeats(spare, scenario)?,
        })
    }

    fn repeats(
        &self,
        spare: &mut Spare<Letter>,
        scenario: &Scenario,
    ) -> Result<List<Letter>, NoMemory>
        ensures { IfOk result (λ letters.
            letters ≡ row.repeats scenario.now self.now self.now.phase) }
    {
        let alloc = spare.alloc();
        match &self.phase {
            // nothing is outstanding before the submission
            Phase::Idle => Ok(List::new(alloc)),
            Phase::Querying { query, staple } => self.query_again(spare, scenario, *query, staple),
            Phase::Stapling { .. } | Phase::Asking { .. } => {
                spare.list_of(self.ask_letter(self.turn))
            }
            Phase::Checking {
                span,
                round,
                staple,
            } => self.round_letters(alloc, *span, self.turn, round, staple),
            Phase::Probing { .. } | Phase::Reading { .. } | Phase::VoteProbing => {
                spare.list_of(self.probe_letter(self.turn))
            }
            Phase::Voting { awaited } => self.vote_letters(alloc, self.turn, awaited.as_slice()),
            Phase::Ending { outcome, awaited } => {
                self.decide_letters(alloc, *outcome, awaited.as_slice())
            }
        }
    }

    fn query_again(
        &self,
        spare: &mut Spare<Letter>,
        scenario: &Scenario,
        number: u32,
        staple: &Option<Staple>,
    ) -> Result<List<Letter>, NoMemory>
        ensures { IfOk result (λ letters.
            letters
            ≡ row.query_again scenario.now self.now number staple.now
            (row.home_of scenario.now self.now number)) }
    {
        let alloc = spare.alloc();
        match self.home_of(scenario, number) {
            None => Ok(List::new(alloc)),
            Some(server) => {
                let letter = self.query_letter(alloc, scenario, self.turn, server, number, staple)?;
                spare.list_of(letter)
            }
        }
    }
}
