// The table of what stands at each place of a request.
ghost use Rattle.request.specs.Fields.{bound, fields, fields_of, width};
ghost use Rattle.std.specs.Prelude.{◌≡◌, ◌≤◌, length};

use crate::kinds::{Kind, QueryKind};
use base::{COMPARTMENTS, USERS};

/// What stands at a place of a request.
#[derive(Clone, Copy, PartialEq, Eq, Debug)]
pub enum Field {
    /// The kind of request, by its number.
    Kind,
    User,
    /// The kind of query, by its number.
    QueryKind,
    Compartment,
    /// A key, an amount, or an end of a key range.
    Word,
}

/// No request has more fields.
pub const MOST_FIELDS: usize = 7;

impl Field {
    /// The field's number is below this.
    pub fn bound(self) -> u64
        ensures { result ≡ bound self }
    {
        match self {
            Field::Kind => 4,
            Field::User => USERS as u64,
            Field::QueryKind => 3,
            Field::Compartment => COMPARTMENTS as u64,
            Field::Word => 0x1_0000_0000,
        }
    }

    /// How many bytes it takes in a trace.
    pub fn width(self) -> usize
        ensures { result ≡ width self }
    {
        match self {
            Field::Kind | Field::User | Field::QueryKind => 1,
            Field::Compartment | Field::Word => 4,
        }
    }
}

/// The fields of a request of this kind; those of a byte come first. Of a kind that is unknown, those by which one
/// would know it.
pub fn fields_of(kind: Option<Kind>) -> &'static [Field]
    ensures table { result.now ≡ fields_of kind }
    ensures few { length result.now ≤ 7 }
{
    use Field::{Compartment, User, Word};
    match kind {
        Some(Kind::Write) => &[Field::Kind, User, Word, Word],
        Some(Kind::Delete) => &[Field::Kind, User, Word],
        Some(Kind::Copy) => &[Field::Kind, User, Compartment, Word, Word],
        Some(Kind::Query(QueryKind::Rows | QueryKind::Total)) => {
            &[Field::Kind, User, Field::QueryKind, Word, Word]
        }
        Some(Kind::Query(QueryKind::Shared)) => &[
            Field::Kind,
            User,
            Field::QueryKind,
            Compartment,
            Compartment,
            Word,
            Word,
        ],
        None => &[Field::Kind, User, Field::QueryKind],
    }
}
