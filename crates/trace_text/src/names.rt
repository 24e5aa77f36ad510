// The words that stand in the lines of a policy, and those by which requests are asked for.
ghost use Rattle.trace_text.specs.Names.{kind_by_word, kind_spelling, spelling};
ghost use Rattle.std.specs.Prelude.{◌≡◌, Some};
ghost use Rattle.std.specs.Str.{bytes_eq};

use request::{Kind, QueryKind};
use std::fmt;

/// A word that stands at a fixed place of a policy's line.
#[derive(Clone, Copy, PartialEq, Eq, Debug)]
pub enum Name {
    Users,
    Compartments,
    User,
    Sees,
    Writes,
    Capacity,
}

impl Name {
    pub(crate) fn spelling(self) -> &'static str
        ensures { result.now ≡ spelling self }
    {
        match self {
            Name::Users => "users",
            Name::Compartments => "compartments",
            Name::User => "user",
            Name::Sees => "sees",
            Name::Writes => "writes",
            Name::Capacity => "capacity",
        }
    }
}

impl fmt::Display for Name {
    ghost output = { λ n. Some (spelling n) };

    fn fmt<W: fmt::Write>(&self, f: &mut fmt::Formatter<W>) -> fmt::Result {
        let spelling = self.spelling();
        write!(f, "{spelling}")
    }
}

const KINDS: [Kind; 6] = [
    Kind::Write,
    Kind::Delete,
    Kind::Copy,
    Kind::Query(QueryKind::Rows),
    Kind::Query(QueryKind::Total),
    Kind::Query(QueryKind::Shared),
];

// The word by which a request of this kind is asked for.
fn kind_spelling(kind: Kind) -> &'static str
    ensures { result.now ≡ kind_spelling kind }
{
    match kind {
        Kind::Write => "write",
        Kind::Delete => "delete",
        Kind::Copy => "copy",
        Kind::Query(QueryKind::Rows) => "rows",
        Kind::Query(QueryKind::Total) => "total",
        Kind::Query(QueryKind::Shared) => "shared",
    }
}

fn is_spelled(kind: Kind, word: &[u8]) -> bool
    ensures { result ≡ bytes_eq word.now (kind_spelling kind) }
{
    word == kind_spelling(kind).as_bytes()
}

pub(crate) fn kind_by_word(word: &[u8]) -> Option<Kind>
    ensures { result ≡ kind_by_word word.now }
{
    KINDS.iter().copied().find(|kind| is_spelled(*kind, word))
}
