//! Why a call of a cluster did no step.
use tp_machine::StepError;

/// Why a call did no step.
#[derive(Clone, Copy)]
pub enum ClusterError {
    /// Memory was refused: the pass is given up.
    NoMemory,
    /// The machine refuses the step.
    Refused(StepError),
}
