//! What is wrong with a scenario, and where.
ghost use Rattle.std.specs.Prelude.{◌≡◌};
ghost use Rattle.tp_scenario.specs.Faults as faults;
ghost use Rattle.tp_scenario.specs.declared.fault.WalkError.TheVariants as WalkError;

use crate::path::{Path, Site};
use tp_policy_text::ParseError;
use tp_types::NoMemory;

/// What is wrong.
#[derive(Clone, Copy)]
pub enum Kind {
    /// The value is of another kind of JSON, or is not spelled as it is to be.
    Shape,
    /// The value is out of its range, or breaks a rule on it.
    Range,
    /// The value names what the scenario does not have.
    Unknown,
    /// The text is no policy.
    Policy(ParseError),
}

/// The first thing that is wrong with a scenario.
#[derive(Drop)]
pub struct Fault {
    pub kind: Kind,
    pub site: Site,
}

/// Why a walk gave nothing.
#[derive(Drop)]
pub(crate) enum WalkError {
    Fault(Fault),
    NoMemory,
}

impl From<NoMemory> for WalkError {
    ghost use Rattle.std.specs.Prelude.{◌≡◌};
    ghost use Rattle.tp_scenario.specs.declared.fault.WalkError.TheVariants.{NoMemory as OutOfMemory};

    ghost from_gives = { λ _ e. e ≡ OutOfMemory };

    fn from(_error: NoMemory) -> WalkError {
        WalkError::NoMemory
    }
}

pub(crate) fn shape_at(path: Path) -> WalkError
    ensures { result ≡ WalkError.Fault (faults.shape path) }
{
    WalkError::Fault(Fault {
        kind: Kind::Shape,
        site: Site::At(path),
    })
}

pub(crate) fn range_at(path: Path) -> WalkError
    ensures { result ≡ WalkError.Fault (faults.range path) }
{
    WalkError::Fault(Fault {
        kind: Kind::Range,
        site: Site::At(path),
    })
}

pub(crate) fn unknown_at(path: Path) -> WalkError
    ensures { result ≡ WalkError.Fault (faults.unknown path) }
{
    WalkError::Fault(Fault {
        kind: Kind::Unknown,
        site: Site::At(path),
    })
}

pub(crate) fn policy_fault_at(path: Path, why: ParseError) -> WalkError
    ensures { result ≡ WalkError.Fault (faults.policy path why) }
{
    WalkError::Fault(Fault {
        kind: Kind::Policy(why),
        site: Site::At(path),
    })
}
