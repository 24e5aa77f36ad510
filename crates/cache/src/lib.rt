//! The answers kept for a user, newest first: looked up by the query and the versions of what the user sees.
#![tactic(auto)]

ghost use Rattle.std.specs.Prelude.{◌≡◌, ◌*◌, ◌/◌, ◌≤◌, ◌++◌, length, slice_index};
ghost use Rattle.std.specs.Result.{result_ok};
ghost use Rattle.cache.specs.CachePlaces.{cached_from, query_numbers, key_numbers, answer_numbers, answer_from, read_place, find_in, look_up, put_first, keep_in};

use base::COMPARTMENTS;
use query::{AnswerSummary, Query};
use rows::KeyRange;

pub mod laws;

/// What is kept of an answer: of rows only which kind they are, since they are worked out again when told.
#[derive(Clone, Copy, PartialEq, Eq, Debug)]
pub enum CachedAnswer {
    /// The rows of the range in each compartment of the view.
    Rows,
    /// How many rows there are in the range, and the sum of their amounts: numbers of memory both.
    Total { rows: u64, amount: u64 },
    /// The rows of one compartment whose keys are in another.
    Shared,
    /// The user does not see both compartments.
    NotSeen,
}

impl From<AnswerSummary> for CachedAnswer {
    ghost from_gives = { λ answered kept. kept ≡ cached_from answered };

    fn from(answered: AnswerSummary) -> CachedAnswer {
        match answered {
            AnswerSummary::Rows { .. } => CachedAnswer::Rows,
            AnswerSummary::Total { rows, amount } => CachedAnswer::Total {
                rows: rows as u64,
                amount,
            },
            AnswerSummary::Shared { .. } => CachedAnswer::Shared,
            AnswerSummary::NotSeen => CachedAnswer::NotSeen,
        }
    }
}

/// Numbers that are not those of an answer.
#[derive(Clone, Copy, PartialEq, Eq, Debug)]
pub struct NoAnswer;

// What is kept, in memory: its kind and two numbers.
impl From<CachedAnswer> for [u64; KEPT] {
    ghost from_gives = { λ kept numbers. numbers ≡ answer_numbers kept };

    fn from(kept: CachedAnswer) -> [u64; KEPT] {
        match kept {
            CachedAnswer::Rows => [1, 0, 0],
            CachedAnswer::Total { rows, amount } => [2, rows, amount],
            CachedAnswer::Shared => [3, 0, 0],
            CachedAnswer::NotSeen => [4, 0, 0],
        }
    }
}

// And back.
impl TryFrom<[u64; KEPT]> for CachedAnswer {
    type Error = NoAnswer;

    ghost try_from_gives = { λ numbers kept. result_ok kept
        ≡ answer_from (slice_index numbers 0) (slice_index numbers 1) (slice_index numbers 2) };

    fn try_from(numbers: [u64; KEPT]) -> Result<CachedAnswer, NoAnswer> {
        match numbers {
            [1, 0, 0] => Ok(CachedAnswer::Rows),
            [2, rows, amount] => Ok(CachedAnswer::Total { rows, amount }),
            [3, 0, 0] => Ok(CachedAnswer::Shared),
            [4, 0, 0] => Ok(CachedAnswer::NotSeen),
            _ => Err(NoAnswer),
        }
    }
}

// A place is 24 numbers: the query in five, a version for each compartment there may be, and what is kept in three.
// Its first 21 are the key.
const QUERY: usize = 5;

const KEPT: usize = 3;

const KEY: usize = QUERY + COMPARTMENTS;

const PLACE: usize = KEY + KEPT;

/// What the newest place with this query and these versions keeps. Only the first sixteen versions count, and where
/// there are fewer, the others are 0. A place with numbers that are not those of an answer is passed over, and so is
/// what is left of the slice after the last whole place.
pub fn look_up(places: &[u64], query: Query, versions: &[u64]) -> Option<CachedAnswer>
    ensures { result ≡ look_up query versions.now places.now }
{
    newest(places, &key_numbers(query, versions))
}

/// Keeps an answer in the first place: all others move back by one, and the oldest goes. A slice too short for a place
/// stays as it is.
pub fn keep(places: &mut [u64], query: Query, versions: &[u64], kept: CachedAnswer)
    ensures { places.new ≡ keep_in query versions.now kept places.old }
{
    if places.len() >= PLACE {
        put_first(places, &key_numbers(query, versions), kept);
    }
}

// Moves all places but the last back by one, and writes the first: its key, then what it keeps.
fn put_first(places: &mut [u64], key: &[u64; KEY], kept: CachedAnswer)
    requires { 24 ≤ length places.old }
    ensures { places.new ≡ put_first (length places.old / 24 * 24) (key.now ++ answer_numbers kept) places.old }
{
    let all = places.len() / PLACE * PLACE;
    places.copy_within(..all - PLACE, PLACE);
    places[..KEY].copy_from_slice(key);
    places[KEY..PLACE].copy_from_slice(&<[u64; KEPT]>::from(kept));
}

// What the newest place with this key keeps.
fn newest(places: &[u64], key: &[u64; KEY]) -> Option<CachedAnswer>
    ensures { result ≡ find_in (length places.now / 24) key.now places.now }
{
    let (places, _) = places.as_chunks::<PLACE>();
    places.iter().find_map(|place| read_place(place, key))
}

// What a place keeps, if it has this key.
fn read_place(place: &[u64; PLACE], key: &[u64; KEY]) -> Option<CachedAnswer>
    ensures { result ≡ read_place key.now place.now }
{
    if !place.starts_with(key) {
        return None;
    }
    let [.., kind, rows, amount] = *place;
    CachedAnswer::try_from([kind, rows, amount]).ok()
}

// The query in five numbers: its kind, the key range, and for shared rows the two compartments.
// A function and no `From`, since both types are of other crates. No kind is 0, so that an empty place has no query's
// key; `request` numbers the kinds from 0.
fn query_numbers(query: Query) -> [u64; QUERY]
    ensures { result ≡ query_numbers query }
{
    let KeyRange { from, to } = query.range();
    let (kind, a, b) = match query {
        Query::Rows { .. } => (1, 0, 0),
        Query::Total { .. } => (2, 0, 0),
        Query::Shared { a, b, .. } => (3, a, b),
    };
    [kind, u64::from(from), u64::from(to), a, b]
}

// The query and the versions, with 0 in what is left of sixteen.
fn key_numbers(query: Query, versions: &[u64]) -> [u64; KEY]
    ensures { result ≡ key_numbers query versions.now }
{
    let mut key = [0; KEY];
    let count = versions.len().min(COMPARTMENTS);
    key[..QUERY].copy_from_slice(&query_numbers(query));
    key[QUERY..QUERY + count].copy_from_slice(&versions[..count]);
    key
}

#[cfg(test)]
mod tests {
    use super::*;

    fn rows(key: u32) -> Query {
        let range = KeyRange { from: key, to: key };
        Query::Rows { range }
    }

    fn shared(a: u64, b: u64) -> Query {
        let range = KeyRange { from: 3, to: 4 };
        Query::Shared { a, b, range }
    }

    #[test]
    fn finds_what_was_kept(rt: HostRuntime) {
        let mut places = [0; 192];
        let total = CachedAnswer::Total {
            rows: 2,
            amount: 70,
        };
        assert_eq!(rt; look_up(&places, rows(5), &[1, 2]), None);
        keep(&mut places, rows(5), &[1, 2], total);
        assert_eq!(rt; look_up(&places, rows(5), &[1, 2]), Some(total));
        assert_eq!(rt; look_up(&places, rows(5), &[1, 3]), None);
        assert_eq!(rt; look_up(&places, rows(5), &[1, 2, 1]), None);
        assert_eq!(rt; look_up(&places, rows(6), &[1, 2]), None);
        assert_eq!(rt; look_up(&places, shared(0, 0), &[1, 2]), None);
    }

    #[test]
    fn drops_the_oldest(rt: HostRuntime) {
        let mut places = [0; 50];
        places[48] = 7;
        keep(&mut places, rows(1), &[], CachedAnswer::Rows);
        keep(&mut places, shared(1, 0), &[], CachedAnswer::Shared);
        assert_eq!(rt; look_up(&places, rows(1), &[]), Some(CachedAnswer::Rows));
        keep(&mut places, shared(0, 1), &[], CachedAnswer::NotSeen);
        assert_eq!(rt; look_up(&places, rows(1), &[]), None);
        assert_eq!(rt;
            look_up(&places, shared(1, 0), &[]),
            Some(CachedAnswer::Shared)
        );
        assert_eq!(rt;
            look_up(&places, shared(0, 1), &[]),
            Some(CachedAnswer::NotSeen)
        );
        assert!(rt; places[48] == 7 && places[49] == 0);
    }

    #[test]
    fn passes_over_damage(rt: HostRuntime) {
        let mut places = [0; 24];
        keep(&mut places, rows(1), &[9], CachedAnswer::Rows);
        places[21] = 5;
        assert_eq!(rt; look_up(&places, rows(1), &[9]), None);
        places[21] = 1;
        assert_eq!(rt; look_up(&places, rows(1), &[9]), Some(CachedAnswer::Rows));
        places[22] = 1;
        assert_eq!(rt; look_up(&places, rows(1), &[9]), None);
        let mut short = [4; 23];
        keep(&mut short, rows(1), &[9], CachedAnswer::Rows);
        assert!(rt; short == [4; 23]);
    }
}
