//! What users ask of the store, as values, and how they are read from numbers and written as numbers.
#![tactic(auto)]

ghost use Rattle.request.specs.Format.{kind_of_query, numbers_of, query_numbers};
ghost use Rattle.request.specs.Kinds.{query_number};
ghost use Rattle.request.specs.Who.{asks, who};
ghost use Rattle.std.specs.Prelude.{◌≡◌, ◌-◌, ◌++◌, ◌∷◌, length, replicate};

mod decoding;
mod fields;
mod kinds;
pub mod laws;

pub use decoding::{InvalidNumber, decode, decode_as};
pub use fields::{Field, MOST_FIELDS, fields_of};
pub use kinds::{Kind, QueryKind};
use query::Query;
use rows::{KeyRange, Row};

/// A request, with the user who makes it.
#[derive(Clone, Copy, PartialEq, Eq, Debug)]
pub enum Request {
    /// The row comes into the compartment in which the user writes.
    Write {
        user: usize,
        row: Row,
    },
    /// The row with the key goes from there.
    Delete {
        user: usize,
        key: u32,
    },
    /// The rows of a range of a compartment come there too.
    Copy {
        user: usize,
        compartment: u64,
        range: KeyRange,
    },
    /// A query over what the user sees.
    Query {
        user: usize,
        query: Query,
    },
}

impl Request {
    /// Who makes it.
    pub fn user(self) -> usize
        ensures { result ≡ who self }
    {
        match self {
            Request::Write { user, .. }
            | Request::Delete { user, .. }
            | Request::Copy { user, .. }
            | Request::Query { user, .. } => user,
        }
    }

    /// Whether it asks, and so changes nothing that anybody else sees.
    pub fn is_query(self) -> bool
        ensures { result ≡ asks self }
    {
        matches!(self, Request::Query { .. })
    }

    /// The numbers that it is written as, and 0 behind the last of its fields.
    pub fn numbers(self) -> [u64; MOST_FIELDS]
        ensures { result ≡ numbers_of self ++ replicate (7 - length (numbers_of self)) 0 }
    {
        let kind = Kind::from(self).into();
        match self {
            Request::Write { user, row } => {
                [
                    kind,
                    user as u64,
                    row.key.into(),
                    row.amount.into(),
                    0,
                    0,
                    0,
                ]
            }
            Request::Delete { user, key } => [kind, user as u64, key.into(), 0, 0, 0, 0],
            Request::Copy {
                user,
                compartment,
                range,
            } => [
                kind,
                user as u64,
                compartment,
                range.from.into(),
                range.to.into(),
                0,
                0,
            ],
            Request::Query { user, query } => query_numbers(kind, user as u64, query),
        }
    }
}

fn query_numbers(kind: u64, user: u64, query: Query) -> [u64; MOST_FIELDS]
    ensures { result ≡ (kind ∷ user ∷ query_number (kind_of_query query) ∷ query_numbers query)
        ++ replicate (4 - length (query_numbers query)) 0 }
{
    let query_kind = QueryKind::from(query).into();
    match query {
        Query::Rows { range } | Query::Total { range } => [
            kind,
            user,
            query_kind,
            range.from.into(),
            range.to.into(),
            0,
            0,
        ],
        Query::Shared { a, b, range } => [
            kind,
            user,
            query_kind,
            a,
            b,
            range.from.into(),
            range.to.into(),
        ],
    }
}

#[cfg(test)]
mod tests {
    use super::*;

    fn refused_at(numbers: &[u64]) -> Option<usize> {
        decode(numbers).err().map(|invalid| invalid.place)
    }

    #[test]
    fn reads_up_to_the_bounds(rt: HostRuntime) {
        assert_eq!(rt; refused_at(&[0, 31, 0xffff_ffff, 0xffff_ffff, 9]), None);
        assert_eq!(rt; refused_at(&[1, 0, 7]), None);
        assert_eq!(rt; refused_at(&[2, 0, 15, 9, 3]), None);
        assert_eq!(rt; refused_at(&[3, 5, 0, 1, 2]), None);
        assert_eq!(rt; refused_at(&[3, 5, 2, 15, 15, 1, 2]), None);
    }

    #[test]
    fn refuses_at_the_lowest_fault(rt: HostRuntime) {
        assert_eq!(rt; refused_at(&[]), Some(0));
        assert_eq!(rt; refused_at(&[4, 32]), Some(0));
        assert_eq!(rt; refused_at(&[0, 32, 0x1_0000_0000]), Some(1));
        assert_eq!(rt; refused_at(&[0, 31, 0x1_0000_0000, 0]), Some(2));
        assert_eq!(rt; refused_at(&[1, 31]), Some(2));
        assert_eq!(rt; refused_at(&[2, 31, 16]), Some(2));
        assert_eq!(rt; refused_at(&[3, 31, 3, 0, 0]), Some(2));
        assert_eq!(rt; refused_at(&[3, 31, 2, 15, 16, 0, 0]), Some(4));
    }

    #[test]
    fn reads_a_copy(rt: HostRuntime) {
        let range = KeyRange { from: 5, to: 6 };
        assert_eq!(rt;
            decode(&[2, 3, 4, 5, 6]),
            Ok(Request::Copy {
                user: 3,
                compartment: 4,
                range,
            },)
        );
    }

    #[test]
    fn writes_what_it_reads(rt: HostRuntime) {
        let written: [[u64; MOST_FIELDS]; 6] = [
            [0, 31, 1, 2, 0, 0, 0],
            [1, 30, 3, 0, 0, 0, 0],
            [2, 29, 15, 4, 5, 0, 0],
            [3, 28, 0, 6, 7, 0, 0],
            [3, 27, 1, 8, 9, 0, 0],
            [3, 26, 2, 14, 13, 10, 11],
        ];
        for numbers in written {
            assert_eq!(rt; decode(&numbers).map(Request::numbers), Ok(numbers));
        }
    }
}
