// Reading a request from numbers: they are judged by the table of fields, and then converted.
ghost use Rattle.request.specs.Decoded.{decode, decode_as, first_invalid, fits, query_in, range_in, request_in};
ghost use Rattle.request.specs.Fields.{fields};
ghost use Rattle.std.specs.Prelude.{◌≡◌, ◌+◌, ◌≤◌, ◌<◌, ◌^◌, length, slice_get, slice_index};

use crate::Request;
use crate::fields::{Field, fields_of};
use crate::kinds::{Kind, QueryKind};
use base::Refusal;
use query::Query;
use rows::{KeyRange, Row};

/// Numbers are no request: the one at this place is missing or out of its bounds, and it is the first that is.
#[derive(Clone, Copy, PartialEq, Eq, Debug)]
pub struct InvalidNumber {
    pub place: usize,
}

impl From<InvalidNumber> for Refusal {
    ghost use Rattle.base.specs.declared.refusal.Refusal.TheVariants.{NoRequest};

    ghost from_gives = { λ invalid refusal. refusal ≡ NoRequest invalid.place };

    fn from(invalid: InvalidNumber) -> Refusal {
        Refusal::NoRequest {
            place: invalid.place,
        }
    }
}

/// The request that the numbers stand for; numbers behind the last one are not looked at.
pub fn decode(numbers: &[u64]) -> Result<Request, InvalidNumber>
    ensures { result ≡ decode numbers.now }
{
    let kind = Kind::of(number_at(numbers, 0), number_at(numbers, 2));
    decode_as(kind, numbers)
}

fn number_at(numbers: &[u64], place: usize) -> Option<u64>
    ensures { result ≡ slice_get numbers.now place }
{
    numbers.get(place).copied()
}

/// The request of a kind, if it is known, that the numbers stand for.
pub fn decode_as(kind: Option<Kind>, numbers: &[u64]) -> Result<Request, InvalidNumber>
    ensures { result ≡ decode_as kind numbers.now }
{
    let fields = fields_of(kind);
    let place = first_invalid(fields, numbers);
    let Some(kind) = kind else {
        return Err(InvalidNumber { place });
    };
    if place < fields.len() {
        return Err(InvalidNumber { place });
    }
    Ok(request_in(kind, numbers))
}

fn fits(field: Field, numbers: &[u64], place: usize) -> bool
    ensures { result ≡ fits field numbers.now place }
{
    place < numbers.len() && numbers[place] < field.bound()
}

// The first place where a number doesn't fit its field; behind the last field if all do.
fn first_invalid(fields: &[Field], numbers: &[u64]) -> usize
    ensures { result ≡ first_invalid 0 fields.now numbers.now }
{
    for (place, field) in fields.iter().enumerate() {
        if !fits(*field, numbers, place) {
            return place;
        }
    }
    fields.len()
}

fn word(numbers: &[u64], place: usize) -> u32
    requires there { place < length numbers.now }
    requires few { slice_index numbers.now place < 2 ^ 32 }
    ensures { result ≡ slice_index numbers.now place }
{
    numbers[place] as u32
}

fn range_in(numbers: &[u64], place: usize) -> KeyRange
    requires there { place + 1 < length numbers.now }
    requires from { slice_index numbers.now place < 2 ^ 32 }
    requires to { slice_index numbers.now (place + 1) < 2 ^ 32 }
    ensures { result ≡ range_in numbers.now place }
{
    KeyRange {
        from: word(numbers, place),
        to: word(numbers, place + 1),
    }
}

fn request_in(kind: Kind, numbers: &[u64]) -> Request
    requires { length (fields kind) ≤ first_invalid 0 (fields kind) numbers.now }
    ensures { result ≡ request_in kind numbers.now }
{
    let user = numbers[1] as usize;
    match kind {
        Kind::Write => Request::Write {
            user,
            row: Row {
                key: word(numbers, 2),
                amount: word(numbers, 3),
            },
        },
        Kind::Delete => Request::Delete {
            user,
            key: word(numbers, 2),
        },
        Kind::Copy => Request::Copy {
            user,
            compartment: numbers[2],
            range: range_in(numbers, 3),
        },
        Kind::Query(QueryKind::Rows) => Request::Query {
            user,
            query: Query::Rows {
                range: range_in(numbers, 3),
            },
        },
        Kind::Query(QueryKind::Total) => Request::Query {
            user,
            query: Query::Total {
                range: range_in(numbers, 3),
            },
        },
        Kind::Query(QueryKind::Shared) => Request::Query {
            user,
            query: Query::Shared {
                a: numbers[3],
                b: numbers[4],
                range: range_in(numbers, 5),
            },
        },
    }
}
