//! The calls that make a trace, each under the definition of what it puts.
//!
//! Every function here is one call of `tp_trace`, and is proved from the contract of that call alone. Each file of
//! `must-fail` turns such a line into a wrong body, which the prover must refuse: what these clauses refuse the
//! contract of the call refuses too. Where a contract of `tp_trace` is weakened so that such a body would pass, the
//! function here is no longer proved. Nothing stands on this crate.
#![tactic(auto)]

ghost use Rattle.std.specs.Prelude.{◌≡◌, ◌++◌, OnOk};
ghost use Rattle.tp_machine.specs.Named.{IsStepOf};
ghost use Rattle.tp_machine.specs.WorldView.{Does};
ghost use Rattle.tp_trace.specs.Bodies as bodies;
ghost use Rattle.tp_trace.specs.Telling.{Tells};

use std::alloc::Global;
use tp_machine::{StepError, World};
use tp_trace::{Telling, put_mail};
use tp_types::{Mail, NoMemory, Scenario, Step};

/// Does a step, and tells it by its block.
pub fn tell_step(
    telling: &mut Telling,
    alloc: Global,
    world: &mut World,
    taken: &Step,
) -> Result<(), StepError>
    requires exists { IsStepOf world.old.scenario taken.now }
    requires so_far { Tells telling.old world.old }
    ensures does { OnOk result (Does world.old world.new taken.now) }
    ensures told { OnOk result (Tells telling.new world.new) }
{
    world.step(alloc, telling, taken)
}

/// Tells a mail by its number, from whom it is, to whom, and what it says, and lets it go.
pub fn tell_mail(out: &mut Vec<u8>, scenario: &Scenario, mail: Mail) -> Result<(), NoMemory>
    ensures { OnOk result (out.new.items ≡ out.old.items ++ bodies.mail_text scenario.now mail) }
{
    put_mail(out, scenario, &mail)
}
