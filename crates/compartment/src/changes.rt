// The changes that the rows of a compartment take.
ghost use Rattle.std.specs.Prelude.{◌≡◌, ℕ, ◌*◌, ◌≤◌, List, length, is_some};
ghost use Rattle.compartment.specs.Changes.{RowsChange, LeavesRows, fitting, put_change, delete_change, copy_change, refill_change, no_change, put_refused, delete_refused, copy_refused, refill_refused, no_change_refused};

use base::Refusal;
use rows::{KeyRange, Row};

// A change of the first `count` of some rows, which may be refused.
pub(crate) trait Change: Copy {
    ghost effect: { Self → RowsChange };

    // Whether it isn't refused.
    fn fits(self, rows: &[u64], count: usize) -> bool
        requires { 2 * count ≤ length rows.now }
        ensures { result ≡ is_some ((effect self).count count rows.now) };

    // Makes it, and says how many rows there are then; a refused one changes nothing.
    fn make(self, rows: &mut [u64], count: usize) -> Option<usize>
        ensures told { result ≡ (effect self).count count rows.old }
        ensures after { rows.new ≡ (effect self).rows count rows.old };

    // What a refusal tells, by the capacity.
    fn refusal(self, capacity: usize) -> Refusal
        ensures { result ≡ (effect self).refusal capacity };

    ghost refused_leaves: { (change : Self) (count : ℕ) (rows : List ℕ) → LeavesRows (effect change) count rows };
}

// A row comes in, in place of the one with its key.
#[derive(Clone, Copy)]
pub(crate) struct Put(pub(crate) Row);

impl Change for Put {
    ghost effect = { λ put. put_change put.0 };

    ghost refused_leaves = { λ put. put_refused put.0 };

    fn fits(self, rows: &[u64], count: usize) -> bool {
        count < rows.len() / 2 || rows::find(&rows[..2 * count], u64::from(self.0.key)).is_some()
    }

    fn make(self, rows: &mut [u64], count: usize) -> Option<usize> {
        rows::put(rows, count, self.0)
    }

    fn refusal(self, capacity: usize) -> Refusal {
        Refusal::NoRoom { capacity }
    }
}

// The row with a key goes.
#[derive(Clone, Copy)]
pub(crate) struct Without(pub(crate) u32);

impl Change for Without {
    ghost effect = { λ without. delete_change without.0 };

    ghost refused_leaves = { λ without. delete_refused without.0 };

    fn fits(self, rows: &[u64], count: usize) -> bool {
        rows::find(&rows[..2 * count], u64::from(self.0)).is_some()
    }

    fn make(self, rows: &mut [u64], count: usize) -> Option<usize> {
        rows::delete(rows, count, self.0)
    }

    fn refusal(self, _capacity: usize) -> Refusal {
        Refusal::NoRow { key: self.0 }
    }
}

// Rows whose keys lie in a range come in, each in place of the one with its key.
#[derive(Clone, Copy)]
pub(crate) struct CopyOf<'a> {
    pub(crate) rows: &'a [u64],
    pub(crate) range: KeyRange,
}

impl Change for CopyOf<'_> {
    ghost effect = { λ copy. copy_change copy.rows.now copy.range };

    ghost refused_leaves = { λ copy. copy_refused copy.rows.now copy.range };

    fn fits(self, rows: &[u64], count: usize) -> bool {
        merge::count_after(self.rows, self.range, &rows[..2 * count]) <= rows.len() / 2
    }

    fn make(self, rows: &mut [u64], count: usize) -> Option<usize> {
        merge::copy_rows(self.rows, self.range, rows, count)
    }

    fn refusal(self, capacity: usize) -> Refusal {
        Refusal::NoRoom { capacity }
    }
}

// There are so many rows from now on, whatever stands where they lie.
#[derive(Clone, Copy)]
pub(crate) struct Refill(pub(crate) usize);

impl Refill {
    fn fitting(self, rows: &[u64]) -> Option<usize>
        ensures { result ≡ fitting self.0 rows.now }
    {
        (self.0 <= rows.len() / 2).then_some(self.0)
    }
}

impl Change for Refill {
    ghost effect = { λ refill. refill_change refill.0 };

    ghost refused_leaves = { λ refill. refill_refused refill.0 };

    fn fits(self, rows: &[u64], _count: usize) -> bool {
        self.fitting(rows).is_some()
    }

    fn make(self, rows: &mut [u64], _count: usize) -> Option<usize> {
        self.fitting(rows)
    }

    fn refusal(self, capacity: usize) -> Refusal {
        Refusal::NoRoom { capacity }
    }
}

// Rows stay as they are, and only the version rises.
#[derive(Clone, Copy)]
pub(crate) struct SameRows;

impl Change for SameRows {
    ghost effect = { λ same. no_change };

    ghost refused_leaves = { λ same. no_change_refused };

    fn fits(self, _rows: &[u64], _count: usize) -> bool {
        true
    }

    fn make(self, _rows: &mut [u64], count: usize) -> Option<usize> {
        Some(count)
    }

    fn refusal(self, capacity: usize) -> Refusal {
        Refusal::NoRoom { capacity }
    }
}
