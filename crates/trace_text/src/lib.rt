//! Traces as text: what a text says is read line by line.
#![tactic(auto)]

ghost use Rattle.trace_text.specs.Said.{ReadsAs, looks_like_text, content_of, trace_in};
ghost use Rattle.std.specs.Prelude.{◌≡◌};

mod entries;
mod fault;
pub mod laws;
mod line;
mod names;
mod opening;
mod pieces;
mod reading;
mod requests;
mod stages;
#[cfg(test)]
mod texts;
mod users;

pub use fault::{Fault, ReadError, Reason};
use line::Line;
pub use names::Name;
use opening::{first_line_with_words, without_mark};
use request::Request;
use std::alloc::Global;

/// What a text says: the numbers of a policy, and the requests behind it.
#[derive(Drop)]
pub struct Trace {
    pub numbers: Vec<u64>,
    pub requests: Vec<Request>,
}

/// What the text says, or the first line that can't be read, and why. The text is only read: where memory runs out,
/// nothing is left behind.
pub fn read(heap: Global, text: &[u8]) -> Result<Trace, ReadError>
    ensures { ReadsAs content_of result (trace_in text.now) }
{
    let mut trace = Trace {
        numbers: Vec::new(heap),
        requests: Vec::new(heap),
    };
    trace.read_lines(without_mark(text))?;
    Ok(trace)
}

/// Whether the first word is `users`, past a byte order mark, blank lines and comments: so begins a trace as text.
pub fn looks_like_text(bytes: &[u8]) -> bool
    ensures { result ≡ looks_like_text bytes.now }
{
    let Some(bytes) = first_line_with_words(without_mark(bytes)) else {
        return false;
    };
    Line { bytes }.is_named(0, Name::Users)
}
