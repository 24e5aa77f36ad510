// Why a program ends before its work is done.
ghost use Rattle.std.specs.Prelude.{◌≡◌};
ghost use Rattle.std.specs.Process.{exit_status};
ghost use Rattle.command_line.specs.Stops.{end_status, status_of, stop_at, stop_of};
ghost use Rattle.command_line.specs.declared.stop.Stop.TheVariants.{Write, OutOfMemory};

use base::Refusal;
use std::alloc::AllocError;
use std::io::{self, ErrorKind};
use std::process::ExitCode;
use trace_text::{Fault, ReadError};

/// Why a program ends before its work is done.
#[derive(Drop)]
pub enum Stop {
    /// Help or the version was asked for, and is told.
    AnswerSummary,
    /// The program does not take these words.
    Usage,
    /// What it works on cannot be read: a file by its name, or standard input.
    Read { name: String, error: io::Error },
    /// Standard output cannot be written.
    Write { error: io::Error },
    /// A trace is refused.
    Refused { refusal: Refusal },
    /// A policy is refused whose bytes begin as a trace as text does.
    IsText { refusal: Refusal },
    /// A text is no trace.
    Fault { fault: Fault },
    OutOfMemory,
}

impl Stop {
    /// A trace with these bytes is refused.
    pub fn at(refusal: Refusal, bytes: &[u8]) -> Stop
        ensures { result ≡ stop_at refusal bytes.now }
    {
        let is_policy = matches!(
            refusal,
            Refusal::OutOfBounds { .. } | Refusal::BadView { .. }
        );
        if is_policy && trace_text::looks_like_text(bytes) {
            Stop::IsText { refusal }
        } else {
            Stop::Refused { refusal }
        }
    }

    // The status with which the program ends.
    pub(crate) fn status(&self) -> u8
        ensures { result ≡ status_of self.now }
    {
        match self {
            Stop::AnswerSummary => 0,
            Stop::Usage => 2,
            // Nobody reads on, as after `| head`.
            Stop::Write { error } if error.kind() == ErrorKind::BrokenPipe => 0,
            Stop::Read { .. } | Stop::Write { .. } | Stop::OutOfMemory => 1,
            Stop::Refused { .. } | Stop::IsText { .. } | Stop::Fault { .. } => 1,
        }
    }
}

/// The status with which a program ends, its work done or not.
pub fn status(done: &Result<(), Stop>) -> ExitCode
    ensures { exit_status result ≡ end_status done.now }
{
    match done {
        Ok(()) => ExitCode::SUCCESS,
        Err(stop) => ExitCode::from(stop.status()),
    }
}

// Only standard output is written by `?`.
impl From<io::Error> for Stop {
    ghost from_gives = { λ error stop. stop ≡ Write error };

    fn from(error: io::Error) -> Stop {
        Stop::Write { error }
    }
}

impl From<AllocError> for Stop {
    ghost from_gives = { λ _ stop. stop ≡ OutOfMemory };

    fn from(_: AllocError) -> Stop {
        Stop::OutOfMemory
    }
}

impl From<ReadError> for Stop {
    ghost from_gives = { λ error stop. stop ≡ stop_of error };

    fn from(error: ReadError) -> Stop {
        match error {
            ReadError::Fault(fault) => Stop::Fault { fault },
            ReadError::OutOfMemory => Stop::OutOfMemory,
        }
    }
}
