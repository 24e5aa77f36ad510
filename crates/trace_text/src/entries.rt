// What a line adds to a trace.
ghost use Rattle.trace_text.specs.Lines.{capacity_said, count_said, and_then};
ghost use Rattle.trace_text.specs.Said.{entry_content, content_if, entry_at, entry_said};
ghost use Rattle.std.specs.Prelude.{◌≡◌, Ok};

use crate::fault::Reason;
use crate::line::Line;
use crate::names::Name;
use crate::requests::request_in;
use crate::stages::{Stage, stage_of};
use crate::users::user_in;
use base::{COMPARTMENTS, USERS};
use policy::Contract;
use request::Request;
use trace_bytes::CAPACITY;

// What a line adds to a trace.
#[derive(Clone, Copy)]
pub(crate) enum Entry {
    Count(u64),
    User(Contract),
    Request(Request),
}

fn count_in(line: Line, name: Name, high: usize) -> Result<u64, Reason>
    ensures { result ≡ count_said name high line.entry.bytes.now }
{
    line.expect_name(0, name)?;
    let count = line.number_within(1, 1, high as u64)?;
    line.ends(2)?;
    Ok(count)
}

fn capacity_in(line: Line, compartment: usize) -> Result<u64, Reason>
    ensures { result ≡ capacity_said compartment line.entry.bytes.now }
{
    line.expect_name(0, Name::Capacity)?;
    line.next_number(1, compartment)?;
    let capacity = line.number_within(2, 1, CAPACITY)?;
    line.ends(3)?;
    Ok(capacity)
}

fn entry_at(line: Line, stage: Stage) -> Result<Entry, Reason>
    ensures { and_then result (λ e. Ok (entry_content e)) ≡ entry_at stage line.entry.bytes.now }
{
    match stage {
        Stage::Users => count_in(line, Name::Users, USERS).map(Entry::Count),
        Stage::Compartments => count_in(line, Name::Compartments, COMPARTMENTS).map(Entry::Count),
        Stage::User { user, compartments } => user_in(line, user, compartments).map(Entry::User),
        Stage::Capacity { compartment } => capacity_in(line, compartment).map(Entry::Count),
        Stage::Requests => request_in(line).map(Entry::Request),
    }
}

// What a line adds, if it is not silent.
pub(crate) fn entry_in(numbers: &[u64], line: Line) -> Result<Option<Entry>, Reason>
    ensures { and_then result (λ e. Ok (content_if e)) ≡ entry_said numbers.now line.entry.bytes.now }
{
    if line.is_silent() {
        return Ok(None);
    }
    let entry = entry_at(line, stage_of(numbers))?;
    Ok(Some(entry))
}
