//! The world: the machine of a scenario and the steps that were done.
ghost use Rattle.std.specs.Prelude.{◌≡◌, ◌≢◌, ℕ, ◌+◌, ◌==◌, ◌++◌, List, ◌<◌, ◌≤◌, ◌*◌, length, true, false, Some, None, is_none, IfOk, IfErr, IfSome, OnOk, OnErr, IsErrOf, IsErr, slice_get};
ghost use Rattle.std.specs.Option.{option_copied};
ghost use Rattle.std.specs.List.{list_any};
ghost use Rattle.tp_model.specs.Valid as valid;
ghost use Rattle.tp_machine.specs.declared.error.StepError.{StepError};
ghost use Rattle.tp_machine.specs.WorldView.{start, IsReached, HasItsFacts, Does, Refuses, GivesUp, is_office};
ghost use Rattle.tp_machine.specs.Fits.{AllFitLogs};
ghost use Rattle.tp_actor_log.specs.Disks.{IsDiskOf};
ghost use Rattle.tp_machine.specs.Logs.{records_of};
ghost use Rattle.tp_machine.specs.Machine as machine;
ghost use Rattle.tp_machine.specs.Views.{coordinator_at, server_at};
ghost use Rattle.tp_types.specs.Each.{Each};
ghost use Rattle.tp_machine.specs.Named.{IsActor, IsStepOf};

use crate::actors::{Actors, Locks};
use crate::acts::{act, is_armed, is_submitted, refusal};
use crate::error::StepError;
use crate::history::History;
use crate::opening::Opening;
use crate::spares::Spares;
use crate::watch::Watch;
use std::alloc::Global;
use std::marker::Model;
use tp_coord::Coordinator;
use tp_device::MemoryDisk;
use tp_server::Server;
use tp_types::{
    Actor, Ending, Fact, List, Mail, NoMemory, Record, Scenario, ServerId, Step, Tally, TryClone,
    TxnId,
};

/// A scenario's cluster after the steps that were done. Contracts see the scenario, whether the world is given up, and the
/// machine. Until the world is given up the machine is what the scenario and the steps give.
#[derive(Drop)]
pub struct World {
    scenario: Scenario,
    opening: Opening,
    given_up: bool,
    actors: Actors,
    history: History,
    spares: Spares,
}

impl Model for World {
    ghost use Rattle.std.specs.Coded.{codes};
    ghost use Rattle.tp_types.specs.contracts.policy.Cond as cond;
    ghost use Rattle.std.specs.Prelude.{◌≡◌};
    ghost use Rattle.tp_machine.specs.Opening.{opening_of};
    ghost use Rattle.tp_machine.specs.WorldView.{WorldView, IsWorld, machine_of};

    ghost Value = { WorldView };

    ghost coded = { Prim.hlevel (codes, cond.the_row.coded) };

    ghost view = { λ w. record {
      scenario = w.scenario;
      given_up = w.given_up;
      machine = machine_of w.actors w.history;
    } };

    ghost invariant = { λ w. IsWorld (record {
      scenario = w.scenario;
      given_up = w.given_up;
      machine = machine_of w.actors w.history;
    }) × (w.opening ≡ opening_of w.scenario) };
}

impl World {
    /// The world of a scenario before the first step. That no run of it makes a record that a log does not take holds of every
    /// scenario that is run; it is shown where all runs are spoken of.
    pub fn start(alloc: Global, scenario: &Scenario) -> Result<World, NoMemory>
        requires valid { valid.is_valid scenario.now ≡ true }
        requires fit { AllFitLogs scenario.now }
        ensures { IfOk result (λ world. world ≡ start scenario.now) }
    {
        let own = scenario.try_clone(alloc)?;
        World::of(alloc, own)
    }

    /// The same of a scenario that the world takes over, so that it is not copied.
    pub fn of(alloc: Global, scenario: Scenario) -> Result<World, NoMemory>
        requires valid { valid.is_valid scenario ≡ true }
        requires fit { AllFitLogs scenario }
        ensures { IfOk result (λ world. world ≡ start scenario) }
    {
        let opening = Opening::of(alloc, &scenario)?;
        let actors = Actors::opened(alloc, &scenario)?;
        let history = History::new(alloc, &scenario)?;
        Ok(World {
            scenario,
            opening,
            given_up: false,
            actors,
            history,
            spares: Spares::new(alloc),
        })
    }

    /// Does a step, and who looks on sees the world before it and after it, and hears of the record that it has its actor force. A
    /// refused step changes nothing, and nobody sees it. Where memory is refused the world is given up, and each later step
    /// answers NoMemory; each actor's log is then that from before the step, or that after it.
    pub fn step<W: Watch>(
        &mut self,
        alloc: Global,
        watch: &mut W,
        taken: &Step,
    ) -> Result<(), StepError>
        requires ids { IsStepOf self.old.scenario taken.now }
        ensures ok { OnOk result (Does self.old self.new taken.now) }
        ensures refused { IfErr result (λ why.
            why ≢ StepError.NoMemory → Refuses self.old self.new taken.now why) }
        ensures memory { IsErrOf result StepError.NoMemory → GivesUp self.old self.new taken.now }
        ensures followed { OnOk result
            (W.follows watch.old self.old → W.follows watch.new self.new) }
        ensures unseen { IfErr result (λ why.
            why ≢ StepError.NoMemory → watch.new ≡ watch.old) }
    {
        if self.given_up {
            return Err(StepError::NoMemory);
        }
        match refusal(&self.actors, &self.history, taken) {
            Some(why) => return Err(why),
            None => {}
        }
        watch.before(alloc, self, taken);
        let done = act(
            &mut self.actors,
            &mut self.history,
            &mut self.spares,
            watch,
            &self.scenario,
            &self.opening,
            taken,
        );
        match done {
            Ok(()) => {
                watch.after(alloc, self, taken);
                Ok(())
            }
            Err(NoMemory) => {
                self.given_up = true;
                Err(StepError::NoMemory)
            }
        }
    }

    /// What happened so far, in order: the facts that the scenario and the steps give.
    pub fn facts(&self) -> &List<Fact>
        ensures value { result.now ≡ self.now.machine.state.facts }
        ensures reached { IsReached self.now }
        ensures named { Each (IsStepOf self.now.scenario) self.now.machine.state.steps }
        ensures of_steps { HasItsFacts self.now }
        ensures valid { valid.is_valid self.now.scenario ≡ true }
    {
        &self.history.facts
    }

    /// The steps that were done, in order.
    pub fn steps(&self) -> &List<Step>
        ensures { result.now ≡ self.now.machine.state.steps }
    {
        &self.history.steps
    }

    /// The number of mails sent so far.
    pub fn mails(&self) -> u64
        ensures { result ≡ length self.now.machine.state.mails }
    {
        self.history.mails.len() as u64
    }

    /// The scenario of the start.
    pub fn scenario(&self) -> &Scenario
        ensures value { result.now ≡ self.now.scenario }
        ensures valid { valid.is_valid self.now.scenario ≡ true }
    {
        &self.scenario
    }

    /// Whether memory was refused in a step.
    pub fn given_up(&self) -> bool
        ensures { result ≡ self.now.given_up }
    {
        self.given_up
    }

    /// Whether an actor is down. The master and the authority never are.
    pub fn down(&self, actor: &Actor) -> bool
        ensures { result ≡ machine.is_down self.now.machine.state.actors actor.now }
    {
        self.actors.is_down(*actor)
    }

    /// The disk of an actor's log; None exactly where the actor is an office. Every image that a crash may leave of it gives exactly
    /// the records that the machine has of the actor, also once the world is given up.
    pub fn disk(&self, actor: &Actor) -> Option<&MemoryDisk>
        requires ids { IsActor self.now.scenario actor.now }
        ensures none { is_none result ≡ is_office actor.now }
        ensures kept { IfSome (option_copied result)
            (λ disk. IsDiskOf disk (records_of self.now.machine.state.actors actor.now)) }
    {
        self.actors.disk(*actor)
    }

    /// Whether a mail of this number was sent, and is neither delivered nor lost.
    pub fn undelivered(&self, mail: u64) -> bool
        ensures { result ≡ list_any (λ (number : ℕ). number == mail) self.now.machine.undelivered }
    {
        self.history.is_pending(mail as usize)
    }

    /// The least number of an undelivered mail, or None exactly where there is none. It takes one step: a step is a node
    /// of the chain through the undelivered mails that is visited, whatever was delivered or lost in between.
    pub fn oldest<T: Tally>(&self, tally: &mut T) -> Option<u64>
        ensures value { result ≡ slice_get self.now.machine.undelivered 0 }
        ensures sent { IfSome result (λ mail. mail < length self.now.machine.state.mails) }
        ensures counted { T.counted tally.new ≡ T.counted tally.old + T.weight }
    {
        self.history.first_pending(tally)
    }

    /// Whether a transaction was submitted.
    pub fn is_submitted(&self, txn: TxnId) -> bool
        ensures { result ≡ machine.is_submitted self.now.machine.state.actors txn }
    {
        is_submitted(&self.actors, txn)
    }

    /// Whether a transaction's coordinator is up, and some request of it is outstanding.
    pub fn armed(&self, txn: TxnId) -> bool
        ensures { result ≡ machine.is_armed_at self.now.machine.state.actors txn }
    {
        is_armed(&self.actors, txn)
    }

    /// How many steps and mails there were, and the value of each item at its server.
    pub fn ending(&self, alloc: Global) -> Result<Ending, NoMemory>
        ensures value { IfOk result (λ ending.
            ending ≡ machine.ending_of self.now.scenario self.now.machine.state) }
        ensures given_up { self.now.given_up ≡ true → IsErr result }
    {
        if self.given_up {
            return Err(NoMemory);
        }
        Ok(Ending {
            steps: self.history.steps.len() as u64,
            mails: self.history.mails.len() as u64,
            values: self.actors.values(alloc, &self.scenario)?,
        })
    }

    /// A mail, by its number.
    pub fn mail(&self, number: u64) -> Option<&Mail>
        ensures { option_copied result ≡ slice_get self.now.machine.state.mails number }
    {
        self.history.mails.get(number as usize)
    }

    /// Every mail that was sent, in order of number.
    pub fn sent(&self) -> &List<Mail>
        ensures { result.now ≡ self.now.machine.state.mails }
    {
        &self.history.mails
    }

    /// A server, by its number, while it is up.
    pub fn server(&self, at: ServerId) -> Option<&Server<Locks>>
        ensures { option_copied result ≡ server_at self.now.machine.state.actors at }
    {
        self.actors.server(at)
    }

    /// The coordinator of a transaction while it is up.
    pub fn coordinator(&self, txn: TxnId) -> Option<&Coordinator>
        ensures { option_copied result ≡ coordinator_at self.now.machine.state.actors txn }
    {
        self.actors.coordinator(txn)
    }

    /// The records of an actor's log; an office has none. The log is read for it.
    pub fn records(&self, alloc: Global, actor: &Actor) -> Result<List<Record>, NoMemory>
        ensures { IfOk result (λ records.
            records ≡ records_of self.now.machine.state.actors actor.now) }
    {
        self.actors.records(alloc, *actor)
    }
}
