//! Denials of a history, as whoever prints or checks them reads what shows them.
ghost use Rattle.std.specs.Prelude.{◌≡◌, true, false, IfOk};
ghost use Rattle.tp_model.specs.Authorisation.{is_allowed};
ghost use Rattle.tp_model.specs.Causes.{denied_question};
ghost use Rattle.tp_why.specs.Denial as denial;

use std::alloc::Global;
use tp_types::{Denied, Fact, List, NoMemory, Scenario, Transaction};
use tp_why::{FalseAtom, denial_of, is_denial_shown};

/// The atoms by which a history shows a denial: where it is one they pass the check.
pub fn find_denial(
    alloc: Global,
    scenario: &Scenario,
    facts: &[Fact],
    declared: &Transaction,
    denied: &Denied,
) -> Result<List<FalseAtom>, NoMemory>
    ensures { is_allowed scenario.now facts.now declared.now (denied_question denied.now) ≡ false
        → IfOk result (λ found.
        denial.is_shown scenario.now facts.now declared.now denied.now found ≡ true) }
{
    denial_of(alloc, scenario, facts, declared, denied)
}

/// Whether atoms show a denial of a history: they do only where it is one.
pub fn check_denial(
    alloc: Global,
    scenario: &Scenario,
    facts: &[Fact],
    declared: &Transaction,
    denied: &Denied,
    atoms: &[FalseAtom],
) -> Result<bool, NoMemory>
    ensures exact { IfOk result (λ is_shown.
        is_shown ≡ denial.is_shown scenario.now facts.now declared.now denied.now atoms.now) }
    ensures sound { IfOk result (λ is_shown.
        is_shown ≡ true
        → is_allowed scenario.now facts.now declared.now (denied_question denied.now) ≡ false) }
{
    is_denial_shown(alloc, scenario, facts, declared, denied, atoms)
}
