//! How a run of the program ended.

ghost use Rattle.std.specs.Prelude.{◌≡◌};

use std::process::ExitCode;

/// How a run of the program ended.
#[derive(Clone, Copy, PartialEq, Eq, Debug)]
pub enum Status {
    /// The answer was printed.
    Answered,
    /// The answer is no.
    Refuted,
    /// The words are no command.
    Usage,
    /// The input was refused.
    Input,
    /// A read of the source failed.
    ReadFault,
    /// A write to the sink failed.
    WriteFault,
    /// Want of memory.
    OutOfMemory,
    /// Some sample is late.
    Late,
    /// A flip path has more than 2^20 flips.
    PathTooLong,
    /// The samples have more than 2^26 bytes.
    TooLarge,
}

impl Status {
    ghost use Rattle.std.specs.Process.{exit_status};
    ghost use Rattle.tl_run.specs.Statuses.{code_of};

    /// The number of the status.
    pub fn code(&self) -> u8
        ensures { result ≡ code_of self.now }
    {
        *self as u8
    }

    /// What the process ends with: the number of the status.
    pub fn exit_code(&self) -> ExitCode
        ensures { exit_status result ≡ code_of self.now }
    {
        ExitCode::from(self.code())
    }
}
