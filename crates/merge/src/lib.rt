//! Copies rows from one part of memory among those of another, by merging from behind.
#![tactic(auto)]

ghost use Rattle.std.specs.Prelude.{◌≡◌, ◌+◌, ◌*◌, ◌/◌, ◌<◌, ◌≤◌, not, length, reverse, map, IfSome};
ghost use Rattle.rows.specs.Halving.{rows_of, pair_row};
ghost use Rattle.merge.specs.Numbers.{new_keys, count_after, plan, fits_in, row_at, row_written, compared, keeps, stepped, written, merging, merged_into, merge_result};

use rows::{KeyRange, pairs, position, range, shared_keys};
use std::cmp::Ordering;

pub mod laws;

/// Rows of a slice: the number that they begin at, and how many they are.
#[derive(Clone, Copy, PartialEq, Eq, Debug)]
pub struct Part {
    pub start: usize,
    pub count: usize,
}

/// The rows of a destination that others come among, how many more stand behind those, and how many there are to be in
/// place of those.
#[derive(Clone, Copy, PartialEq, Eq, Debug)]
pub struct Copying {
    pub destination: Part,
    pub behind: usize,
    pub total: usize,
}

/// How many rows of `source` have keys that `destination` lacks, in one pass over both.
pub fn new_keys(source: &[u64], destination: &[u64]) -> usize
    ensures value { result ≡ new_keys source.now destination.now }
    ensures within { result ≤ length source.now / 2 }
{
    source.len() / 2 - shared_keys(source, destination)
}

/// How many rows there are once `rows` have come among those of `destination`, each in place of the one with its key.
/// The keys of `rows` lie in `keys`, so only that range of the destination is looked at.
pub fn count_after(rows: &[u64], keys: KeyRange, destination: &[u64]) -> usize
    ensures { result ≡ count_after rows.now keys destination.now }
{
    destination.len() / 2 + new_keys(rows, range(destination, keys))
}

/// What a copy of `rows`, whose keys lie in `keys`, comes to: that range is found in the destination by binary search,
/// and the new keys are counted.
pub fn plan(rows: &[u64], keys: KeyRange, destination: &[u64]) -> Copying
    ensures value { result ≡ plan rows.now keys destination.now }
    ensures all { result.destination.start / 2 + result.destination.count + result.behind ≡ length destination.now / 2 }
    ensures within { result.total ≤ result.destination.count + length rows.now / 2 }
    ensures order { result.destination.count ≤ result.total }
{
    let among = range(destination, keys);
    let first = position(destination, u64::from(keys.from));
    let count = among.len() / 2;
    Copying {
        destination: Part {
            start: 2 * first,
            count,
        },
        behind: destination.len() / 2 - first - count,
        total: count + new_keys(rows, among),
    }
}

/// Merges `rows` among those of the destination, each in place of the one with its key, moves those behind them once,
/// and says that it is done; where all have no room, or there are to be fewer rows than before, nothing changes.
pub fn merge_into(rows: &[u64], destination: &mut [u64], copying: Copying) -> bool
    ensures told { result ≡ fits_in copying (length destination.old) }
    ensures after { destination.new ≡ merged_into rows.now copying destination.old }
{
    if !copying.fits_in(destination.len()) {
        return false;
    }
    let Part { start, count } = copying.destination;
    let Copying { behind, total, .. } = copying;
    let among = &mut destination[start..];
    among.copy_within(2 * count..2 * count + 2 * behind, 2 * total);
    merge(rows, among, Left { count, total });
    true
}

/// Copies `rows`, whose keys lie in `keys`, among the first `count` of `destination`, each in place of the one with its
/// key, and says how many there are then; where there is no room, or `destination` holds fewer than `count`, nothing
/// changes.
pub fn copy_rows(
    rows: &[u64],
    keys: KeyRange,
    destination: &mut [u64],
    count: usize,
) -> Option<usize>
    ensures told { result ≡ (merge_result rows.now keys count destination.old).count }
    ensures after { destination.new ≡ (merge_result rows.now keys count destination.old).rows }
    ensures within { IfSome result (λ n. 2 * n ≤ length destination.old) }
{
    let room = destination.len() / 2;
    if count > room {
        return None;
    }
    let copying = plan(rows, keys, &destination[..2 * count]);
    let total = count - copying.destination.count + copying.total;
    if total > room {
        return None;
    }
    // There is room, so that it is done.
    merge_into(rows, destination, copying);
    Some(total)
}

impl Copying {
    // Whether so many numbers hold all rows that there are to be, and none has to go.
    fn fits_in(&self, len: usize) -> bool
        ensures { result ≡ fits_in self.now len }
    {
        let Part { start, count } = self.destination;
        count <= self.total
            && start <= len
            && self.total <= (len - start) / 2
            && self.behind <= (len - start) / 2 - self.total
    }
}

// What is left of a merge: the first `count` rows of the destination, and the first `total` places, for them and for
// those to come.
#[derive(Clone, Copy)]
struct Left {
    count: usize,
    total: usize,
}

// From behind, so that no row of sorted ones is written over before it has moved. It is done where no row to copy is
// left, and stops where no place is, as it may where rows are not sorted.
fn merge(rows: &[u64], destination: &mut [u64], left: Left)
    requires count { 2 * left.count ≤ length destination.old }
    requires total { 2 * left.total ≤ length destination.old }
    ensures { destination.new ≡ merging left.total (reverse (rows_of rows.now)) left destination.old }
{
    let mut left = left;
    let mut waiting = pairs(rows);
    while let Some((row, front)) = waiting.split_last() {
        if left.total == 0 {
            return;
        }
        if left.turn(*row, destination) {
            waiting = front;
        }
    }
}

impl Left {
    // Writes the last row left or the one to copy to the last place left: the greater, and the one to copy where keys
    // are equal. Says whether it was that.
    fn turn(&mut self, row: [u64; 2], destination: &mut [u64]) -> bool
        requires count { 2 * self.old.count ≤ length destination.old }
        requires total { 2 * self.old.total ≤ length destination.old }
        requires places { 0 < self.old.total }
        ensures told { result ≡ not (keeps (pair_row row).key self.old destination.old) }
        ensures next { self.new ≡ stepped (pair_row row).key self.old destination.old }
        ensures after { destination.new ≡ written (pair_row row) self.old destination.old }
    {
        let [key, _] = row;
        let last = self.compare(key, destination);
        self.total -= 1;
        match last {
            Ordering::Greater => {
                self.count -= 1;
                let kept = row_at(destination, self.count);
                write_row(destination, self.total, kept);
                return false;
            }
            Ordering::Equal => self.count -= 1,
            Ordering::Less => {}
        }
        write_row(destination, self.total, row);
        true
    }

    // How the key of the last row left compares with that of the one to copy: as less where none is left.
    fn compare(&self, key: u64, destination: &[u64]) -> Ordering
        requires { 2 * self.now.count ≤ length destination.now }
        ensures { result ≡ compared key self.now destination.now }
    {
        match self.count.checked_sub(1) {
            Some(last) => destination[2 * last].cmp(&key),
            None => Ordering::Less,
        }
    }
}

// The row at a place, as its key and its amount.
fn row_at(rows: &[u64], at: usize) -> [u64; 2]
    requires { 2 * at + 2 ≤ length rows.now }
    ensures { pair_row result ≡ row_at at rows.now }
{
    [rows[2 * at], rows[2 * at + 1]]
}

// Writes a row at a place.
fn write_row(rows: &mut [u64], at: usize, row: [u64; 2])
    requires { 2 * at + 2 ≤ length rows.old }
    ensures { rows.new ≡ row_written at (pair_row row) rows.old }
{
    let [key, amount] = row;
    rows[2 * at] = key;
    rows[2 * at + 1] = amount;
}

#[cfg(test)]
mod tests {
    use super::*;

    #[test]
    fn counts_new_keys(rt: HostRuntime) {
        assert_eq!(rt; new_keys(&[1, 0, 3, 0, 5, 0], &[2, 0, 3, 0]), 2);
        assert_eq!(rt; new_keys(&[1, 0, 2, 0, 9], &[1, 0, 2, 0]), 0);
        assert_eq!(rt; new_keys(&[], &[1, 0]), 0);
        assert_eq!(rt; new_keys(&[1, 0], &[]), 1);
    }

    #[test]
    fn plans_a_range(rt: HostRuntime) {
        let keys = KeyRange { from: 4, to: 8 };
        let found = Copying {
            destination: Part { start: 2, count: 2 },
            behind: 1,
            total: 3,
        };
        assert_eq!(rt; plan(&[5, 0, 7, 0], keys, &[1, 0, 5, 0, 6, 0, 9, 0]), found);
    }

    #[test]
    fn merges(rt: HostRuntime) {
        let rows = [5, 50, 7, 70];
        let mut memory = [1, 1, 5, 6, 9, 9, 8, 8, 8];
        let copying = Copying {
            destination: Part { start: 0, count: 2 },
            behind: 1,
            total: 3,
        };
        assert!(rt; merge_into(&rows, &mut memory, copying));
        assert!(rt; memory == [1, 1, 5, 50, 7, 70, 9, 9, 8]);
        let outside = Copying {
            behind: 2,
            ..copying
        };
        assert!(rt; !merge_into(&rows, &mut memory, outside));
        let fewer = Copying {
            destination: Part { start: 0, count: 4 },
            ..copying
        };
        assert!(rt; !merge_into(&rows, &mut memory, fewer));
        assert!(rt; memory == [1, 1, 5, 50, 7, 70, 9, 9, 8]);
    }

    #[test]
    fn copies(rt: HostRuntime) {
        let keys = KeyRange { from: 4, to: 8 };
        let rows = [5, 50, 7, 70];
        assert_eq!(rt; count_after(&rows, keys, &[1, 1, 5, 6, 9, 9]), 4);
        let mut memory = [1, 1, 5, 6, 9, 9, 8, 8, 8];
        assert_eq!(rt; copy_rows(&rows, keys, &mut memory, 3), Some(4));
        assert!(rt; memory == [1, 1, 5, 50, 7, 70, 9, 9, 8]);
        assert_eq!(rt; copy_rows(&[6, 60], keys, &mut memory, 4), None);
        assert_eq!(rt; copy_rows(&rows, keys, &mut memory, 5), None);
        assert_eq!(rt; copy_rows(&rows, keys, &mut memory, 4), Some(4));
        assert!(rt; memory == [1, 1, 5, 50, 7, 70, 9, 9, 8]);
        let mut empty = [0; 4];
        assert_eq!(rt; copy_rows(&rows, keys, &mut empty, 0), Some(2));
        assert!(rt; empty == rows);
    }

    // Rows that are not sorted are merged by the same steps, also where no place is left for the last of them, or one
    // is written over before it is compared.
    #[test]
    fn copies_unsorted_rows(rt: HostRuntime) {
        let all = KeyRange {
            from: 0,
            to: u32::MAX,
        };
        let mut memory = [5, 50, 3, 31, 0, 0];
        assert_eq!(rt; copy_rows(&[3, 30], all, &mut memory, 2), Some(3));
        assert!(rt; memory == [5, 50, 3, 31, 3, 30]);
        let mut memory = [3, 31, 9, 9, 8];
        assert_eq!(rt; copy_rows(&[3, 30, 3, 33], all, &mut memory, 1), Some(1));
        assert!(rt; memory == [3, 33, 9, 9, 8]);
        let mut memory = [5, 51, 4, 41, 0, 0, 0, 0];
        let rows = [5, 50, 5, 55, 7, 70, 8, 80];
        assert_eq!(rt; copy_rows(&rows, all, &mut memory, 2), Some(4));
        assert!(rt; memory == rows);
    }
}
