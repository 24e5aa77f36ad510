// What the system refuses, in plain words.
use std::fmt;
use std::io::{self, ErrorKind};

// In std's words for the kind of error, where it has plain ones.
#[derive(Clone, Copy)]
pub(crate) struct Reason {
    pub(crate) error: io::Error,
}

impl fmt::Display for Reason {
    fn fmt<W: fmt::Write>(&self, f: &mut fmt::Formatter<W>) -> fmt::Result {
        let error = self.error;
        let kind = error.kind();
        match kind {
            ErrorKind::NotFound => write!(f, "no such file"),
            ErrorKind::StorageFull => write!(f, "no space left"),
            ErrorKind::Uncategorized => write!(f, "{error}"),
            _ => write!(f, "{kind}"),
        }
    }
}
