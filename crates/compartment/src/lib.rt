//! One compartment's part of memory: its version, its number of rows, and room for its capacity of rows of two numbers.
#![tactic(auto)]

ghost use Rattle.std.specs.Prelude.{◌≡◌, ◌+◌, ◌*◌, ◌^◌, ◌<◌, ◌≤◌, length, take, drop, IfOk, slice_index};
ghost use Rattle.compartment.specs.Parts.{count_told, rows_part, counts_of, change_rows, change_part, write_part, delete_part, copy_part, refill_part, raise_part};

use base::Refusal;
use changes::{Change, CopyOf, Put, Refill, SameRows, Without};
pub use copying::Copying;
use copying::Counts;
use policy::{VERSION_LIMIT, Written};
use rows::Row;

mod changes;
mod copying;
pub mod laws;

/// The number of rows, or which of the two numbers is out of bounds; the part begins at `start` in memory.
pub fn check(part: &[u64], start: usize) -> Result<usize, Refusal>
    ensures told { result ≡ count_told start part.now }
    ensures within { IfOk result (λ count. (2 + 2 * count ≤ length part.now) × (slice_index part.now 0 < 2 ^ 40)) }
{
    match part {
        [version, count, rows @ ..] if *version < VERSION_LIMIT => match usize::try_from(*count) {
            Ok(count) if count <= rows.len() / 2 => Ok(count),
            _ => Err(Refusal::OutOfBounds {
                place: start.saturating_add(1),
            }),
        },
        _ => Err(Refusal::OutOfBounds { place: start }),
    }
}

/// The first `count` rows; none where the part doesn't hold as many.
pub fn rows_of(part: &[u64], count: usize) -> &[u64]
    ensures { result.now ≡ rows_part count part.now }
{
    match part {
        [_, _, rows @ ..] if count <= rows.len() / 2 => first_rows(part, count),
        _ => &part[..0],
    }
}

// In what follows `written` says what refusals name; the part's length says how many rows there is room for.

/// Writes a row, in place of the one with its key, and raises the version; a refusal changes nothing.
pub fn write(part: &mut [u64], written: Written, row: Row) -> Result<(), Refusal>
    ensures told { result ≡ (write_part written row part.old).told }
    ensures after { part.new ≡ (write_part written row part.old).memory }
{
    change(part, written, Put(row))
}

/// Deletes the row with a key, and raises the version; a refusal changes nothing.
pub fn delete(part: &mut [u64], written: Written, key: u32) -> Result<(), Refusal>
    ensures told { result ≡ (delete_part written key part.old).told }
    ensures after { part.new ≡ (delete_part written key part.old).memory }
{
    change(part, written, Without(key))
}

/// Copies the rows of a range of another part, and raises the version: all of them, or a refusal changes nothing.
pub fn copy(copying: Copying, source: &[u64], part: &mut [u64]) -> Result<(), Refusal>
    ensures told { result ≡ (copy_part copying source.now part.old).told }
    ensures after { part.new ≡ (copy_part copying source.now part.old).memory }
{
    let counts = check_both(copying, source, part)?;
    let range = copying.range;
    let rows = rows::range(first_rows(source, counts.source), range);
    let compartment = copying.written.compartment;
    let change = CopyOf { rows, range };
    change_rows(part, compartment, counts.destination, change)
}

/// Raises the version and sets the number of rows, which the caller then writes; a refusal changes nothing.
pub fn refill(part: &mut [u64], written: Written, count: usize) -> Result<(), Refusal>
    ensures told { result ≡ (refill_part written count part.old).told }
    ensures after { part.new ≡ (refill_part written count part.old).memory }
{
    change(part, written, Refill(count))
}

/// Raises the version alone, as a copy of a compartment into itself does; a refusal changes nothing.
pub fn raise(part: &mut [u64], written: Written) -> Result<(), Refusal>
    ensures told { result ≡ (raise_part written part.old).told }
    ensures after { part.new ≡ (raise_part written part.old).memory }
{
    change(part, written, SameRows)
}

// The part that lies first in memory is judged first.
fn check_both(copying: Copying, source: &[u64], part: &[u64]) -> Result<Counts, Refusal>
    ensures told { result ≡ counts_of copying source.now part.now }
    ensures source { IfOk result (λ counts. 2 + 2 * counts.source ≤ length source.now) }
    ensures part { IfOk result (λ counts. 2 + 2 * counts.destination ≤ length part.now) }
    ensures version { IfOk result (λ counts. slice_index part.now 0 < 2 ^ 40) }
{
    let from = copying.from.start;
    let into = copying.written.place.start;
    if from < into {
        let source = check(source, from)?;
        let destination = check(part, into)?;
        return Ok(Counts {
            source,
            destination,
        });
    }
    let destination = check(part, into)?;
    let source = check(source, from)?;
    Ok(Counts {
        source,
        destination,
    })
}

// The first rows of a part that was judged.
fn first_rows(part: &[u64], count: usize) -> &[u64]
    requires { 2 + 2 * count ≤ length part.now }
    ensures { result.now ≡ take (2 * count) (drop 2 part.now) }
{
    &part[2..2 + 2 * count]
}

fn change<C: Change>(part: &mut [u64], written: Written, change: C) -> Result<(), Refusal>
    ensures told { result ≡ (change_part written (C.effect change) part.old).told }
    ensures after { part.new ≡ (change_part written (C.effect change) part.old).memory }
{
    let count = check(part, written.place.start)?;
    change_rows(part, written.compartment, count, change)
}

// Any change of the first `count` rows, which raises the version: where both refuse, the rows do.
fn change_rows<C: Change>(
    part: &mut [u64],
    compartment: u64,
    count: usize,
    change: C,
) -> Result<(), Refusal>
    requires long { 2 + 2 * count ≤ length part.old }
    requires version { slice_index part.old 0 < 2 ^ 40 }
    ensures told { result ≡ (change_rows compartment (C.effect change) count part.old).told }
    ensures after { part.new ≡ (change_rows compartment (C.effect change) count part.old).memory }
{
    let capacity = (part.len() - 2) / 2;
    let version = part[0] + 1;
    if version == VERSION_LIMIT {
        if !change.fits(&part[2..], count) {
            return Err(change.refusal(capacity));
        }
        return Err(Refusal::LastVersion { compartment });
    }
    let Some(count) = change.make(&mut part[2..], count) else {
        return Err(change.refusal(capacity));
    };
    part[0] = version;
    part[1] = count as u64;
    Ok(())
}

#[cfg(test)]
mod tests {
    use super::{Copying, copy, delete, raise, refill, rows_of, write};
    use base::Refusal;
    use policy::{Place, VERSION_LIMIT, Written};
    use rows::{KeyRange, Row};

    const WRITTEN: Written = Written {
        compartment: 3,
        place: Place {
            start: 10,
            capacity: 2,
        },
    };

    const COPYING: Copying = Copying {
        from: Place {
            start: 2,
            capacity: 2,
        },
        written: WRITTEN,
        range: KeyRange { from: 0, to: 100 },
    };

    #[test]
    fn writes_and_deletes(rt: HostRuntime) {
        let mut part = [0u64; 6];
        assert!(rt; write(&mut part, WRITTEN, Row { key: 7, amount: 70 }).is_ok());
        assert!(rt; write(&mut part, WRITTEN, Row { key: 5, amount: 50 }).is_ok());
        assert!(rt; part == [2, 2, 5, 50, 7, 70]);
        let full = write(&mut part, WRITTEN, Row { key: 6, amount: 60 });
        assert!(rt; matches!(full, Err(Refusal::NoRoom { capacity: 2 })));
        let none = delete(&mut part, WRITTEN, 6);
        assert!(rt; matches!(none, Err(Refusal::NoRow { key: 6 })));
        assert!(rt; part == [2, 2, 5, 50, 7, 70]);
        assert!(rt; delete(&mut part, WRITTEN, 5).is_ok());
        assert!(rt; part[..4] == [3, 1, 7, 70]);
        assert!(rt; rows_of(&part, 1) == [7, 70].as_slice());
    }

    #[test]
    fn keeps_the_last_version(rt: HostRuntime) {
        let mut part = [VERSION_LIMIT - 1, 1, 7, 70];
        let last = write(&mut part, WRITTEN, Row { key: 7, amount: 71 });
        assert!(rt; matches!(last, Err(Refusal::LastVersion { compartment: 3 })));
        let full = write(&mut part, WRITTEN, Row { key: 8, amount: 80 });
        assert!(rt; matches!(full, Err(Refusal::NoRoom { capacity: 1 })));
        let none = delete(&mut part, WRITTEN, 8);
        assert!(rt; matches!(none, Err(Refusal::NoRow { key: 8 })));
        let last = raise(&mut part, WRITTEN);
        assert!(rt; matches!(last, Err(Refusal::LastVersion { compartment: 3 })));
        let last = refill(&mut part, WRITTEN, 1);
        assert!(rt; matches!(last, Err(Refusal::LastVersion { compartment: 3 })));
        let full = refill(&mut part, WRITTEN, 2);
        assert!(rt; matches!(full, Err(Refusal::NoRoom { capacity: 1 })));
        let last = copy(COPYING, &[0, 1, 7, 71], &mut part);
        assert!(rt; matches!(last, Err(Refusal::LastVersion { compartment: 3 })));
        let full = copy(COPYING, &[0, 1, 8, 80], &mut part);
        assert!(rt; matches!(full, Err(Refusal::NoRoom { capacity: 1 })));
        assert!(rt; part == [VERSION_LIMIT - 1, 1, 7, 70]);
    }

    #[test]
    fn copies_where_there_is_room(rt: HostRuntime) {
        let mut part = [4, 1, 7, 70, 0, 0];
        let full = copy(COPYING, &[0, 2, 8, 80, 9, 90], &mut part);
        assert!(rt; matches!(full, Err(Refusal::NoRoom { capacity: 2 })));
        assert!(rt; part == [4, 1, 7, 70, 0, 0]);
        assert!(rt; copy(COPYING, &[0, 2, 5, 50, 7, 71], &mut part).is_ok());
        assert!(rt; part == [5, 2, 5, 50, 7, 71]);
        assert!(rt; raise(&mut part, WRITTEN).is_ok());
        assert!(rt; part == [6, 2, 5, 50, 7, 71]);
        let both = copy(COPYING, &[0, 1], &mut [0, 3, 0, 0]);
        assert!(rt; matches!(both, Err(Refusal::OutOfBounds { place: 3 })));
    }

    #[test]
    fn cuts_rows_where_there_are_as_many(rt: HostRuntime) {
        let part = [4, 1, 7, 70, 8, 80, 9];
        assert!(rt; rows_of(&part, 0) == [].as_slice());
        assert!(rt; rows_of(&part, 1) == [7, 70].as_slice());
        assert!(rt; rows_of(&part, 2) == [7, 70, 8, 80].as_slice());
        assert!(rt; rows_of(&part, 3) == [].as_slice());
        assert!(rt; rows_of(&part, usize::MAX) == [].as_slice());
        assert!(rt; rows_of(&part[..1], 0) == [].as_slice());
    }

    #[test]
    fn refills_where_there_is_room(rt: HostRuntime) {
        let mut part = [4, 1, 7, 70, 0, 0];
        let full = refill(&mut part, WRITTEN, 3);
        assert!(rt; matches!(full, Err(Refusal::NoRoom { capacity: 2 })));
        assert!(rt; part == [4, 1, 7, 70, 0, 0]);
        assert!(rt; refill(&mut part, WRITTEN, 2).is_ok());
        assert!(rt; part == [5, 2, 7, 70, 0, 0]);
        assert!(rt; refill(&mut part, WRITTEN, 0).is_ok());
        assert!(rt; part == [6, 0, 7, 70, 0, 0]);
        let short = refill(&mut part[..1], WRITTEN, 0);
        assert!(rt; matches!(short, Err(Refusal::OutOfBounds { place: 10 })));
        let damaged = refill(&mut [4, 2, 7, 70], WRITTEN, 1);
        assert!(rt; matches!(damaged, Err(Refusal::OutOfBounds { place: 11 })));
    }

    #[test]
    fn finds_damage(rt: HostRuntime) {
        assert!(rt;
            matches!(
                super::check(&[0], 10),
                Err(Refusal::OutOfBounds { place: 10 })
            )
        );
        assert!(rt;
            matches!(
                super::check(&[VERSION_LIMIT, 2, 0, 0], 10),
                Err(Refusal::OutOfBounds { place: 10 })
            )
        );
        assert!(rt;
            matches!(
                super::check(&[0, 2, 0, 0], 10),
                Err(Refusal::OutOfBounds { place: 11 })
            )
        );
        assert!(rt; matches!(super::check(&[0, 1, 0, 0], 10), Ok(1)));
    }
}
