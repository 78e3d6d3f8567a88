//! How a run ends.
ghost use Rattle.std.specs.Prelude.{◌≡◌};
ghost use Rattle.tp_ends.specs.Status.{status_number};

/// How a run ended.
#[derive(Debug, Drop, PartialEq)]
pub enum Status {
    /// The whole text was written.
    Done,
    /// The scenario or a listed step was refused.
    Refused,
    /// The words are no command.
    Usage,
    /// The input failed.
    ReadFault,
    /// The output that the answer is written to failed.
    WriteFault,
    /// No memory was to be had.
    NoMemory,
}

impl Status {
    /// The exit status of the program.
    pub fn number(&self) -> u8
        ensures { result ≡ status_number self.now }
    {
        match self {
            Status::Done => 0,
            Status::Refused => 1,
            Status::Usage => 2,
            Status::ReadFault => 3,
            Status::WriteFault => 4,
            Status::NoMemory => 5,
        }
    }
}
