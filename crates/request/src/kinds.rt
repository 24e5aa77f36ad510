// The kinds of requests and of queries, and the numbers that say which.
ghost use Rattle.request.specs.Format.{kind_of, kind_of_query};
ghost use Rattle.request.specs.Kinds.{kind_number, kind_numbered, query_number, query_numbered};
ghost use Rattle.std.specs.Prelude.{◌≡◌};

use crate::Request;
use query::Query;

/// The kinds of requests.
#[derive(Clone, Copy, PartialEq, Eq, Debug)]
pub enum Kind {
    Write,
    Delete,
    Copy,
    Query(QueryKind),
}

/// The kinds of queries, by their numbers.
#[derive(Clone, Copy, PartialEq, Eq, Debug)]
pub enum QueryKind {
    Rows = 0,
    Total = 1,
    Shared = 2,
}

impl Kind {
    /// The kind of a request whose first and third number are these, as far as they are there: a query says by the
    /// third of which kind it is.
    pub fn of(first: Option<u64>, third: Option<u64>) -> Option<Kind>
        ensures { result ≡ kind_numbered first third }
    {
        match first? {
            0 => Some(Kind::Write),
            1 => Some(Kind::Delete),
            2 => Some(Kind::Copy),
            3 => third.and_then(query_numbered).map(Kind::Query),
            _ => None,
        }
    }
}

fn query_numbered(number: u64) -> Option<QueryKind>
    ensures { result ≡ query_numbered number }
{
    match number {
        0 => Some(QueryKind::Rows),
        1 => Some(QueryKind::Total),
        2 => Some(QueryKind::Shared),
        _ => None,
    }
}

impl From<Kind> for u64 {
    ghost from_gives = { λ kind number. number ≡ kind_number kind };

    fn from(kind: Kind) -> u64 {
        match kind {
            Kind::Write => 0,
            Kind::Delete => 1,
            Kind::Copy => 2,
            Kind::Query(_) => 3,
        }
    }
}

impl From<QueryKind> for u64 {
    ghost from_gives = { λ kind number. number ≡ query_number kind };

    fn from(kind: QueryKind) -> u64 {
        kind as u64
    }
}

impl From<Query> for QueryKind {
    ghost from_gives = { λ query kind. kind ≡ kind_of_query query };

    fn from(query: Query) -> QueryKind {
        match query {
            Query::Rows { .. } => QueryKind::Rows,
            Query::Total { .. } => QueryKind::Total,
            Query::Shared { .. } => QueryKind::Shared,
        }
    }
}

impl From<Request> for Kind {
    ghost from_gives = { λ request kind. kind ≡ kind_of request };

    fn from(request: Request) -> Kind {
        match request {
            Request::Write { .. } => Kind::Write,
            Request::Delete { .. } => Kind::Delete,
            Request::Copy { .. } => Kind::Copy,
            Request::Query { query, .. } => Kind::Query(query.into()),
        }
    }
}
