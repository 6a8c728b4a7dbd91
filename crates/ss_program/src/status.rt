// How a run ends.
ghost use Rattle.std.specs.Prelude.{◌≡◌};
ghost use Rattle.std.specs.Process.{exit_status};

use std::process::ExitCode;

/// How a run ends. docs/GUIDE.md lists the statuses with their causes.
#[derive(Clone, Copy, Debug, PartialEq, Eq)]
pub enum Status {
    Done,
    Usage,
    RefusedStore,
    DiskFault,
    SourceFault,
    SinkFault,
    OutOfMemory,
    InputLimit,
    RecordChanged,
}

impl Status {
    ghost use Rattle.ss_program.specs.Status.{exit_number};

    /// The exit status.
    pub fn number(self) -> u8
        ensures { result ≡ exit_number self }
    {
        match self {
            Status::Done => 0,
            Status::Usage => 2,
            Status::RefusedStore => 3,
            Status::DiskFault => 4,
            Status::SourceFault => 5,
            Status::SinkFault => 6,
            Status::OutOfMemory => 7,
            Status::InputLimit => 8,
            Status::RecordChanged => 9,
        }
    }
}

/// What standard error says of an exit status, where it says something.
pub fn complaint(number: u8) -> Option<&'static str> {
    match number {
        4 => Some("summarystore: disk fault"),
        5 => Some("summarystore: input fault"),
        6 => Some("summarystore: output fault"),
        7 => Some("summarystore: out of memory"),
        8 => Some("summarystore: input too long"),
        9 => Some("summarystore: record changed"),
        _ => None,
    }
}

/// The exit code of a number.
pub fn exit_code(number: u8) -> ExitCode
    ensures { exit_status result ≡ number }
{
    ExitCode::from(number)
}
