// How requests lie in bytes.
ghost use Rattle.std.specs.Prelude.{◌≡◌, ◌++◌, List, Option, length, slice_get, OnOk};
ghost use Rattle.request.specs.Kinds.{kind_in};
ghost use Rattle.trace_bytes.specs.NextRequest.{is_whole, next_in, Takes};
ghost use Rattle.trace_bytes.specs.Written.{request_bytes, requests_bytes};

use crate::item::Next;
use crate::layout::Layout;
use crate::numbers::byte_at;
use request::{InvalidNumber, Kind, MOST_FIELDS, Request, decode_as, fields_of};
use std::alloc::AllocError;

// The byte there, as a number.
fn number_at(bytes: &[u8], place: usize) -> Option<u64>
    ensures { result ≡ slice_get bytes.now place }
{
    bytes.get(place).map(|byte| u64::from(*byte))
}

/// The request at the front of the bytes; `length` is how many of them it takes.
pub fn next(bytes: &[u8]) -> Next
    ensures value { result ≡ next_in bytes.now }
    ensures takes { Takes (length bytes.now) result }
{
    let kind = Kind::of(number_at(bytes, 0), number_at(bytes, 2));
    let layout = Layout::of(fields_of(kind));
    let length = layout.size();
    match decode_as(kind, layout.read(bytes, &mut [0; MOST_FIELDS])) {
        Ok(request) => Next::Request { request, length },
        Err(InvalidNumber { place }) => {
            if kind.is_none() || bytes.len() < length {
                return Next::End { place };
            }
            Next::Fault {
                user: byte_at(bytes, 1),
                place,
                length,
            }
        }
    }
}

fn push_request(bytes: &mut Vec<u8>, request: Request) -> Result<(), AllocError>
    ensures { OnOk result (bytes.new.items ≡ bytes.old.items ++ request_bytes request) }
{
    let kind = Kind::from(request);
    Layout::of(fields_of(Some(kind))).push(bytes, &request.numbers())
}

pub(crate) fn push_requests(bytes: &mut Vec<u8>, requests: &[Request]) -> Result<(), AllocError>
    ensures { OnOk result (bytes.new.items ≡ bytes.old.items ++ requests_bytes requests.now) }
{
    for request in requests {
        push_request(bytes, *request)?;
    }
    Ok(())
}
