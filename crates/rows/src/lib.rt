//! Rows in lent memory, sorted by key: found by binary search, put, deleted, restricted to a key range, added up,
//! compared with others.
#![tactic(auto)]

ghost use Rattle.std.specs.Prelude.{◌≡◌, ◌+◌, ◌*◌, ◌/◌, ◌%◌, ◌^◌, ◌≤◌, length, map, IfSome, MatchResult, slice_set};
ghost use Rattle.std.specs.Iterator.{YieldsFirstBy, item_count};
ghost use Rattle.rows.specs.Rows.{sum};
ghost use Rattle.rows.specs.Halving.{pair_row, position, rows_of};
ghost use Rattle.rows.specs.Passes.{shared_rows};
ghost use Rattle.rows.specs.Numbers.{search_result, place, insert_row, put_count, put_into, delete_count, delete_from, range_part, totals_of, from_key, first_is, intersection, in_front, shared_count, shared_into};

pub mod laws;

/// One row of a compartment.
#[derive(Clone, Copy, PartialEq, Eq, Debug)]
pub struct Row {
    pub key: u32,
    pub amount: u32,
}

/// All keys from one to another, both included.
#[derive(Clone, Copy, PartialEq, Eq, Debug)]
pub struct KeyRange {
    pub from: u32,
    pub to: u32,
}

/// How many rows there are, and the sum of their amounts.
#[derive(Clone, Copy, PartialEq, Eq, Debug)]
pub struct Totals {
    pub rows: usize,
    pub amount: u64,
}

/// The rows, each as its key and its amount; an odd number at the end belongs to none.
#[tactic(auto, using(crate::proofs::Paired::pairs_rows))]
pub fn pairs(rows: &[u64]) -> &[[u64; 2]]
    ensures { map pair_row result.now ≡ rows_of rows.now }
{
    rows.as_chunks().0
}

/// Where a binary search for `key` ends, whatever memory holds; where rows are sorted by key, how many keys are
/// smaller.
pub fn position(rows: &[u64], key: u64) -> usize
    ensures value { result ≡ position key rows.now }
    ensures within { 2 * result ≤ length rows.now }
{
    halve(rows, key)
}

// The search itself. By hand: `partition_point` says where it ends only for rows that are sorted.
fn halve(rows: &[u64], key: u64) -> usize
    ensures value { result ≡ position key rows.now }
    ensures within { 2 * result ≤ length rows.now }
{
    let mut low = 0;
    let mut high = rows.len() / 2;
    while low < high {
        let mid = low + (high - low) / 2;
        if rows[2 * mid] < key {
            low = mid + 1;
        } else {
            high = mid;
        }
    }
    low
}

// The place of the row with this key, or where it would be inserted.
fn search(rows: &[u64], key: u64) -> Result<usize, usize>
    ensures value { result ≡ search_result key rows.now }
    ensures within { MatchResult result (λ at. 2 * at + 2 ≤ length rows.now) (λ at. 2 * at ≤ length rows.now) }
{
    let at = position(rows, key);
    if at < rows.len() / 2 && rows[2 * at] == key {
        Ok(at)
    } else {
        Err(at)
    }
}

/// The place of the row with this key.
pub fn find(rows: &[u64], key: u64) -> Option<usize>
    ensures value { result ≡ place key rows.now }
    ensures within { IfSome result (λ at. 2 * at + 2 ≤ length rows.now) }
{
    search(rows, key).ok()
}

/// Puts a row among the first `count` of `part`, in place of the one with its key, and returns how many there are then;
/// where there is no room for one more, or `count` is more than the part holds, nothing changes.
///
/// The count is passed and returned, not kept in a struct: it lies in lent memory, before the rows.
pub fn put(part: &mut [u64], count: usize, row: Row) -> Option<usize>
    ensures told { result ≡ put_count count row part.old }
    ensures after { part.new ≡ put_into count row part.old }
    ensures within { IfSome result (λ n. 2 * n ≤ length part.old) }
{
    let room = part.len() / 2;
    if count > room {
        return None;
    }
    match search(&part[..2 * count], u64::from(row.key)) {
        Ok(at) => {
            part[2 * at + 1] = u64::from(row.amount);
            Some(count)
        }
        Err(_) if count == room => None,
        Err(at) => {
            insert(part, at, count, row);
            Some(count + 1)
        }
    }
}

// Moves the rows from `at` on by one place, and writes the row where they were.
fn insert(part: &mut [u64], at: usize, count: usize, row: Row)
    requires before { at ≤ count }
    requires room { 2 * count + 2 ≤ length part.old }
    ensures { part.new ≡ insert_row at count row part.old }
{
    part.copy_within(2 * at..2 * count, 2 * at + 2);
    set_row(part, at, [u64::from(row.key), u64::from(row.amount)]);
}

// Writes a row, as its key and its amount, at a place.
fn set_row(rows: &mut [u64], at: usize, row: [u64; 2])
    requires { 2 * at + 2 ≤ length rows.old }
    ensures { rows.new ≡ slice_set (slice_set rows.old (2 * at) (pair_row row).key) (2 * at + 1) (pair_row row).amount }
{
    let [key, amount] = row;
    rows[2 * at] = key;
    rows[2 * at + 1] = amount;
}

/// Deletes the row with this key from the first `count` of `part`, and returns how many are left;
/// where there is none, or `count` is more than the part holds, nothing changes.
pub fn delete(part: &mut [u64], count: usize, key: u32) -> Option<usize>
    ensures told { result ≡ delete_count count key part.old }
    ensures after { part.new ≡ delete_from count key part.old }
    ensures within { IfSome result (λ n. 2 * n ≤ length part.old) }
{
    if count > part.len() / 2 {
        return None;
    }
    let at = find(&part[..2 * count], u64::from(key))?;
    part.copy_within(2 * at + 2..2 * count, 2 * at);
    Some(count - 1)
}

/// The part of the rows whose keys lie in a range: none where it runs backward.
pub fn range(rows: &[u64], range: KeyRange) -> &[u64]
    ensures value { result.now ≡ range_part range rows.now }
    ensures within { length result.now ≤ length rows.now }
    ensures whole { length result.now % 2 ≡ 0 }
{
    let start = position(rows, u64::from(range.from));
    let end = position(rows, u64::from(range.to) + 1).max(start);
    &rows[2 * start..2 * end]
}

/// How many rows there are, and the sum of their amounts, modulo 2^64.
pub fn total(rows: &[u64]) -> Totals
    ensures { result ≡ totals_of rows.now }
{
    Totals {
        rows: rows.len() / 2,
        amount: add_up(rows),
    }
}

fn add_up(rows: &[u64]) -> u64
    ensures { result ≡ sum (rows_of rows.now) % 2 ^ 64 }
{
    let mut sum = 0u64;
    for [_, amount] in pairs(rows) {
        sum = sum.wrapping_add(*amount);
    }
    sum
}

/// Writes the rows of `a` whose keys are in `b` to the front of `out`, in one pass over both, and returns how many
/// they are; where `out` has less room than `a`, nothing changes.
pub fn shared(a: &[u64], b: &[u64], out: &mut [u64]) -> Option<usize>
    ensures told { result ≡ shared_count a.now b.now out.old }
    ensures after { out.new ≡ shared_into a.now b.now out.old }
    ensures within { IfSome result (λ n. n ≤ length a.now / 2) }
{
    if out.len() / 2 < a.len() / 2 {
        return None;
    }
    Some(merge(a, b, out))
}

// Writes the rows that both share to the front of `out`, and returns how many they are.
fn merge(a: &[u64], b: &[u64], out: &mut [u64]) -> usize
    requires { length a.now / 2 ≤ length out.old / 2 }
    ensures told { result ≡ length (intersection (rows_of a.now) (rows_of b.now)) }
    ensures after { out.new ≡ in_front (intersection (rows_of a.now) (rows_of b.now)) out.old }
    ensures within { result ≤ length a.now / 2 }
{
    // Counted by hand, since the number is what is returned.
    let mut written = 0;
    for row in SharedRows::new(a, b) {
        set_row(out, written, *row);
        written += 1;
    }
    written
}

/// How many rows of `a` have keys that are in `b`, in one pass over both.
#[tactic(auto, using(crate::proofs::Passes::length_shared))]
pub fn shared_keys(a: &[u64], b: &[u64]) -> usize
    ensures value { result ≡ length (intersection (rows_of a.now) (rows_of b.now)) }
    ensures within { result ≤ length a.now / 2 }
{
    SharedRows::new(a, b).count()
}

// The rows whose keys are among those of others, in one pass over both: what is passed on either side is not seen
// again.
#[derive(Drop)]
struct SharedRows<'a> {
    rows: &'a [[u64; 2]],
    others: &'a [[u64; 2]],
}

impl<'a> SharedRows<'a> {
    fn new(a: &'a [u64], b: &'a [u64]) -> SharedRows<'a>
        ensures { shared_rows result ≡ intersection (rows_of a.now) (rows_of b.now) }
    {
        SharedRows {
            rows: pairs(a),
            others: pairs(b),
        }
    }
}

impl<'a> Iterator for SharedRows<'a> {
    type Item = &'a [u64; 2];

    ghost next_gives = { YieldsFirstBy (λ row. pair_row row.now) shared_rows };

    ghost remaining = { item_count shared_rows };

    fn next(&mut self) -> Option<&'a [u64; 2]> {
        while let [row, rows @ ..] = self.rows {
            let [key, _] = row;
            self.rows = rows;
            self.others = skip(self.others, *key);
            if first_is(self.others, *key) {
                return Some(row);
            }
        }
        None
    }
}

// The rows from the first one on whose key is not smaller.
fn skip(rows: &[[u64; 2]], key: u64) -> &[[u64; 2]]
    ensures { map pair_row result.now ≡ from_key key (map pair_row rows.now) }
{
    let smaller = rows.iter().take_while(|[first, _]| *first < key).count();
    &rows[smaller..]
}

// Whether the first row is there and has this key.
fn first_is(rows: &[[u64; 2]], key: u64) -> bool
    ensures { result ≡ first_is key (map pair_row rows.now) }
{
    rows.first().is_some_and(|[first, _]| *first == key)
}

#[cfg(test)]
mod tests {
    use super::*;

    #[test]
    fn puts_and_deletes(rt: HostRuntime) {
        let mut part = [0u64; 5];
        assert_eq!(rt; put(&mut part, 0, Row { key: 7, amount: 70 }), Some(1));
        assert_eq!(rt; put(&mut part, 1, Row { key: 0, amount: 30 }), Some(2));
        assert!(rt; part == [0, 30, 7, 70, 0]);
        assert_eq!(rt; put(&mut part, 2, Row { key: 0, amount: 31 }), Some(2));
        assert_eq!(rt; put(&mut part, 2, Row { key: 5, amount: 50 }), None);
        assert_eq!(rt; put(&mut part, 3, Row { key: 0, amount: 32 }), None);
        assert!(rt; part == [0, 31, 7, 70, 0]);
        assert_eq!(rt; delete(&mut part, 3, 0), None);
        assert_eq!(rt; delete(&mut part, 2, 5), None);
        assert_eq!(rt; delete(&mut part, 2, 0), Some(1));
        assert!(rt; part[0] == 7 && part[1] == 70);
    }

    #[test]
    fn reads_ranges(rt: HostRuntime) {
        let rows = [3, 30, 5, 50, u32::MAX as u64, 70, 1];
        assert_eq!(rt; find(&rows, 5), Some(1));
        assert_eq!(rt; find(&rows, 6), None);
        assert_eq!(rt; find(&rows[..2], 5), None);
        assert_eq!(rt; position(&rows, 1 << 32), 3);
        assert!(rt; range(&rows, KeyRange { from: 3, to: 5 }) == [3, 30, 5, 50].as_slice());
        assert!(rt; range(&rows, KeyRange { from: 4, to: 4 }).is_empty());
        assert!(rt; range(&rows, KeyRange { from: 5, to: 3 }).is_empty());
        let all = KeyRange {
            from: 0,
            to: u32::MAX,
        };
        assert!(rt; range(&rows, all).len() == 6);
    }

    #[test]
    fn adds_up(rt: HostRuntime) {
        let sum = total(&[1, 10, 2, 20, 3]);
        assert_eq!(rt; sum.rows, 2);
        assert_eq!(rt; sum.amount, 30);
        assert_eq!(rt; total(&[1, u64::MAX, 2, 3]).amount, 2);
    }

    #[test]
    fn compares_keys(rt: HostRuntime) {
        let mut out = [9u64; 7];
        let some = shared(&[1, 10, 2, 20, 4, 40], &[2, 0, 3, 0, 4, 0], &mut out);
        assert_eq!(rt; some, Some(2));
        assert!(rt; out == [2, 20, 4, 40, 9, 9, 9]);
        assert_eq!(rt; shared(&[1, 1, 2, 2, 3, 3, 4, 4], &[], &mut out), None);
    }
}
