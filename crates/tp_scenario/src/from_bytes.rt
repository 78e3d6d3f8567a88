//! From bytes to a scenario.
ghost use Rattle.std.specs.Prelude.{◌≡◌, ◌⊎◌, ◌<◌, length, true, Result, IfOk, IfErr, IsErrOf, IsUtf8};
ghost use Rattle.serde_json.specs.Read.{read as read_json};
ghost use Rattle.tp_json.specs.View.{view};
ghost use Rattle.tp_types.specs.declared.scenario.Scenario.{Scenario};
ghost use Rattle.tp_model.specs.SpelledNames.{is_spelled};
ghost use Rattle.tp_model.specs.Valid.{is_valid};
ghost use Rattle.tp_scenario.specs.declared.from_bytes.ScenarioError.{ScenarioError};
ghost use Rattle.tp_scenario.specs.Reads as reads;
ghost use Rattle.tp_scenario.specs.Reads.{Says, IsOutOfMemory, IsText, GivesSpelled, GivesValid, HasOneAnswer, IsTextOfOne, length_max};
ghost use Rattle.tp_scenario.specs.Spelled.{HasOneSplit, ReadsQueries, SaysOneQuery, ReadsSteps, SaysOneStep, GivesQueries, GivesSteps};
ghost use Rattle.tp_scenario.specs.Walk as walk;
ghost use Rattle.tp_scenario.specs.mirrors.Refusing.{IsRefusal, IsTextError};

use crate::fault::{Fault, Kind, WalkError};
use crate::path::site_text;
use crate::whole::walked;
use json::Scratch;
use std::alloc::Global;
use tp_json::{Json, JsonError};
use tp_policy_text::ParseError;
use tp_types::{NoMemory, Scenario, Text};

/// The most bytes of a scenario: 16 MiB.
pub const LENGTH_MAX: usize = 16_777_216;

/// Why bytes are refused as a scenario. A path is `$`, then `.key` and `[index]`.
#[derive(Drop)]
pub enum ScenarioError {
    /// There are more than 16,777,216 bytes.
    TooLong,
    /// The bytes are no UTF-8, or `serde_json` has no reading of them.
    BadJson,
    /// The value there is of another kind of JSON, or is not spelled as it is to be.
    Shape { path: Text },
    /// The value there is out of its range, or breaks a rule on it.
    Range { path: Text },
    /// The value there names what the scenario does not have.
    Unknown { path: Text },
    /// The text there is no policy.
    Policy { path: Text, fault: ParseError },
    NoMemory,
}

impl From<NoMemory> for ScenarioError {
    ghost use Rattle.std.specs.Prelude.{◌≡◌};
    ghost use Rattle.tp_scenario.specs.declared.from_bytes.ScenarioError.TheVariants.{NoMemory as OutOfMemory};

    ghost from_gives = { λ _ e. e ≡ OutOfMemory };

    fn from(_error: NoMemory) -> ScenarioError {
        ScenarioError::NoMemory
    }
}

fn json_of<'a>(
    alloc: Global,
    bytes: &'a [u8],
    scratch: &'a mut Scratch,
) -> Result<Json<'a>, ScenarioError>
    ensures ok { IfOk result (λ v. IsUtf8 bytes.now × (read_json bytes.now ≡ Some (view v))) }
    ensures err { IfErr result (IsTextError bytes.now) }
{
    match tp_json::read(alloc, bytes, scratch) {
        Ok(value) => Ok(value),
        Err(JsonError::BadText) => Err(ScenarioError::BadJson),
        Err(JsonError::NoMemory) => Err(ScenarioError::NoMemory),
    }
}

fn refused_at(kind: Kind, path: Text) -> ScenarioError
    ensures { result ≡ reads.error_at kind path }
{
    match kind {
        Kind::Shape => ScenarioError::Shape { path },
        Kind::Range => ScenarioError::Range { path },
        Kind::Unknown => ScenarioError::Unknown { path },
        Kind::Policy(fault) => ScenarioError::Policy { path, fault },
    }
}

fn refused(alloc: Global, fault: &Fault) -> ScenarioError
    ensures { IsRefusal (reads.error_of fault.now) result }
{
    match site_text(alloc, &fault.site) {
        Ok(path) => refused_at(fault.kind, path),
        Err(NoMemory) => ScenarioError::NoMemory,
    }
}

fn scenario_of(alloc: Global, value: &Json) -> Result<Scenario, ScenarioError>
    ensures { IsOutOfMemory result ⊎ (result ≡ reads.answer_to (view value.now)) }
{
    match walked(alloc, value) {
        Ok(scenario) => Ok(scenario),
        Err(WalkError::NoMemory) => Err(ScenarioError::NoMemory),
        Err(WalkError::Fault(fault)) => Err(refused(alloc, &fault)),
    }
}

/// Reads a scenario from a JSON text. What is wrong first in it is named.
///
/// A key that an object has twice counts with its last value.
pub fn read(alloc: Global, bytes: &[u8]) -> Result<Scenario, ScenarioError>
    ensures answer { IsOutOfMemory result ⊎ Says bytes.now result }
    ensures only { (answer : Result Scenario ScenarioError) → Says bytes.now answer
        → IsOutOfMemory result ⊎ (result ≡ answer) }
    ensures text { IfOk result (λ scenario. IsText bytes.now scenario) }
    ensures valid { IfOk result (λ scenario. is_valid scenario ≡ true) }
    ensures spelled { IfOk result (λ scenario. is_spelled scenario ≡ true) }
    ensures too_long { length_max < length bytes.now → result ≡ Err ScenarioError.TooLong }
{
    if bytes.len() > LENGTH_MAX {
        return Err(ScenarioError::TooLong);
    }
    let mut scratch = Scratch::new(alloc);
    let value = json_of(alloc, bytes, &mut scratch)?;
    scenario_of(alloc, &value)
}

/// Bytes have at most one answer, and are a text of at most one scenario. What the walk over a JSON value gives keeps every rule of a
/// scenario, and its names are spelled as names.
/// Its body is empty: a law that only a definition states could stay unproved.
pub fn reading_is_exact()
    ensures answer { HasOneAnswer }
    ensures text { IsTextOfOne }
    ensures valid { GivesValid }
    ensures spelled { GivesSpelled }
{}

/// What the text of a query or of a step says is told by a relation, and that is what is read of it: a query or a step is read of a
/// text exactly where the text says it, and a text says one.
pub fn texts_have_one_reading()
    ensures words { HasOneSplit }
    ensures queries { ReadsQueries }
    ensures one_query { SaysOneQuery }
    ensures steps { ReadsSteps }
    ensures one_step { SaysOneStep }
    ensures query_values { GivesQueries }
    ensures step_values { GivesSteps }
{}
