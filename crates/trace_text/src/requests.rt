// The request that a line says.
ghost use Rattle.std.specs.Prelude.{◌≡◌, ◌<◌};
ghost use Rattle.trace_text.specs.Lines.{request_by, query_said, range_at, request_said};

use crate::fault::Reason;
use crate::line::Line;
use base::{COMPARTMENTS, USERS};
use query::Query;
use request::{Kind, QueryKind, Request};
use rows::{KeyRange, Row};

// The last two numbers of a line.
fn range_at(line: Line, place: u8) -> Result<KeyRange, Reason>
    requires { place < 254 }
    ensures { result ≡ range_at line.entry.bytes.now place }
{
    let from = line.key(place)?;
    let to = line.key(place + 1)?;
    line.ends(place + 2)?;
    Ok(KeyRange { from, to })
}

pub(crate) fn request_in(line: Line) -> Result<Request, Reason>
    ensures { result ≡ request_said line.entry.bytes.now }
{
    let user = line.below(0, USERS)? as usize;
    let kind = line.kind(1)?;
    request_by(line, user, kind)
}

// What the user asks for, behind the word for its kind.
fn request_by(line: Line, user: usize, kind: Kind) -> Result<Request, Reason>
    ensures { result ≡ request_by kind user line.entry.bytes.now }
{
    match kind {
        Kind::Write => {
            let key = line.key(2)?;
            let amount = line.key(3)?;
            line.ends(4)?;
            Ok(Request::Write {
                user,
                row: Row { key, amount },
            })
        }
        Kind::Delete => {
            let key = line.key(2)?;
            line.ends(3)?;
            Ok(Request::Delete { user, key })
        }
        Kind::Copy => {
            let compartment = line.below(2, COMPARTMENTS)?;
            let range = range_at(line, 3)?;
            Ok(Request::Copy {
                user,
                compartment,
                range,
            })
        }
        Kind::Query(kind) => {
            let query = query_in(line, kind)?;
            Ok(Request::Query { user, query })
        }
    }
}

// What a query asks, behind the word for its kind.
fn query_in(line: Line, kind: QueryKind) -> Result<Query, Reason>
    ensures { result ≡ query_said kind line.entry.bytes.now }
{
    match kind {
        QueryKind::Rows => range_at(line, 2).map(|range| Query::Rows { range }),
        QueryKind::Total => range_at(line, 2).map(|range| Query::Total { range }),
        QueryKind::Shared => {
            let a = line.below(2, COMPARTMENTS)?;
            let b = line.below(3, COMPARTMENTS)?;
            let range = range_at(line, 4)?;
            Ok(Query::Shared { a, b, range })
        }
    }
}
