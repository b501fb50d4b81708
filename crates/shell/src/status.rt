//! How a run ends, as whoever started it sees.
ghost use Rattle.std.specs.Prelude.{◌≡◌};
ghost use Rattle.std.specs.Process.{exit_status};
ghost use Rattle.shell.specs.Statuses.{both, number_of};

use std::process::ExitCode;

#[derive(Clone, Copy, Debug, PartialEq, Eq)]
pub enum Status {
    Done,
    /// What was read is refused, or is not as it should be.
    Refused,
    /// A stream or a file could not be read or written.
    Failed,
    /// The words after the program's name are not understood.
    Misused,
}

impl Status {
    /// That of two runs, one after the other: the first that is not done.
    pub fn and(self, next: Status) -> Status
        ensures { result ≡ both self next }
    {
        match self {
            Status::Done => next,
            other => other,
        }
    }
}

impl From<Status> for ExitCode {
    ghost from_gives = { λ s e. exit_status e ≡ number_of s };

    fn from(status: Status) -> ExitCode {
        let number: u8 = match status {
            Status::Done => 0,
            Status::Refused | Status::Failed => 1,
            Status::Misused => 2,
        };
        ExitCode::from(number)
    }
}
