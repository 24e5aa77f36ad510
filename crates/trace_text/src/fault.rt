// Why a text is no trace.
ghost use Rattle.trace_text.specs.Faults.{error_bytes, fault_bytes, reason_bytes};
ghost use Rattle.trace_text.specs.declared.fault.ReadError.TheVariants as error;
ghost use Rattle.std.specs.Prelude.{◌≡◌, Some};

use crate::names::Name;
use std::alloc::AllocError;
use std::error::Error;
use std::fmt;

/// Why a line can't be read. Words count from 1.
#[derive(Clone, Copy, PartialEq, Eq, Debug)]
pub enum Reason {
    /// Another word should stand there.
    Expected { name: Name },
    /// Users and capacities are listed in rising order, each once.
    NotNext { next: usize },
    /// The line ends before this word.
    Missing { word: usize },
    NotANumber { word: usize },
    /// The word is none by which a request is asked for.
    NotARequest { word: usize },
    OutOfBounds { word: usize },
    /// The line should end before this word.
    TooMany { word: usize },
    /// A user sees a compartment that the policy doesn't have.
    NoCompartment { compartment: u64 },
    SeenTwice { user: usize, compartment: u64 },
    SeesNothing { user: usize },
    /// The user doesn't see the compartment in which they write.
    WritesUnseen { user: usize, compartment: u64 },
    /// The text ends before the policy does.
    Truncated,
}

impl fmt::Display for Reason {
    ghost output = { λ r. Some (reason_bytes r) };

    fn fmt<W: fmt::Write>(&self, f: &mut fmt::Formatter<W>) -> fmt::Result {
        match self {
            Reason::Expected { name } => write!(f, "expected {name}"),
            Reason::NotNext { next } => write!(f, "expected number {next}"),
            Reason::Missing { word } => write!(f, "word {word} is missing"),
            Reason::NotANumber { word } => write!(f, "word {word} is not a number"),
            Reason::NotARequest { word } => write!(f, "word {word} is not a request"),
            Reason::OutOfBounds { word } => write!(f, "word {word} is out of bounds"),
            Reason::TooMany { word } => write!(f, "word {word} is too many"),
            Reason::NoCompartment { compartment } => {
                write!(f, "compartment {compartment} is not there")
            }
            Reason::SeenTwice { user, compartment } => {
                write!(f, "user {user} sees compartment {compartment} twice")
            }
            Reason::SeesNothing { user } => write!(f, "user {user} sees nothing"),
            Reason::WritesUnseen { user, compartment } => {
                write!(
                    f,
                    "user {user} does not see compartment {compartment}, where they write"
                )
            }
            Reason::Truncated => write!(f, "the policy is truncated"),
        }
    }
}

/// The line that can't be read, counted from 1, and why.
#[derive(Clone, Copy, PartialEq, Eq, Debug)]
pub struct Fault {
    pub line: usize,
    pub reason: Reason,
}

impl fmt::Display for Fault {
    ghost output = { λ t. Some (fault_bytes t) };

    fn fmt<W: fmt::Write>(&self, f: &mut fmt::Formatter<W>) -> fmt::Result {
        let line = self.line;
        let reason = self.reason;
        write!(f, "line {line}: {reason}")
    }
}

/// Why a text is not read.
#[derive(Clone, Copy, PartialEq, Eq, Debug)]
pub enum ReadError {
    Fault(Fault),
    OutOfMemory,
}

impl fmt::Display for ReadError {
    ghost output = { λ e. Some (error_bytes e) };

    fn fmt<W: fmt::Write>(&self, f: &mut fmt::Formatter<W>) -> fmt::Result {
        match self {
            ReadError::Fault(fault) => write!(f, "{fault}"),
            ReadError::OutOfMemory => write!(f, "out of memory"),
        }
    }
}

impl Error for ReadError {}

impl From<Fault> for ReadError {
    ghost from_gives = { λ fault e. e ≡ error.Fault fault };

    fn from(fault: Fault) -> Self {
        Self::Fault(fault)
    }
}

impl From<AllocError> for ReadError {
    ghost from_gives = { λ _ e. e ≡ error.OutOfMemory };

    fn from(_error: AllocError) -> Self {
        Self::OutOfMemory
    }
}
