// Answers, worked out of the parts of memory that a query looks at and of nothing else.
ghost use Rattle.std.specs.Prelude.{◌≡◌, ◌+◌, ◌%◌, ◌^◌, ◌<◌, ◌≤◌, true, [], ◌∷◌, ◌++◌, map, length, drop, nat_le};
ghost use Rattle.rows.specs.Numbers.{range_part};
ghost use Rattle.query.specs.AnswerRows.{row_has_room, lengths, counts, count_in, amount_in, range_parts, common_rows, written_lists, written_list, rows_outcome, total_outcome, list_outcome, shared_result, answer_result};

use crate::{AnswerSummary, HEADER, Outcome, Query};
use base::COMPARTMENTS;
use rows::KeyRange;
use std::marker::Model;

// The rows of each compartment that a query looks at, in its order.
#[derive(Drop)]
struct Parts<'a> {
    parts: &'a [&'a [u64]],
}

impl<'a> Model for Parts<'a> {
    ghost use Rattle.std.specs.Prelude.{ℕ, List, map};

    ghost Value = { List (List ℕ) };

    ghost view = { λ p. map (λ x. x.now) p.parts.now };
}

/// Answers a query. Each part is the rows of one compartment, in the order in which `Scope::compartments` has them.
/// None, with the row as it was, where the row has no room for what the parts hold.
pub fn answer(query: Query, parts: &[&[u64]], row: &mut [u64]) -> Option<Outcome>
    ensures told { result ≡ (answer_result query (map (λ x. x.now) parts.now) row.old).told }
    ensures after { row.new ≡ (answer_result query (map (λ x. x.now) parts.now) row.old).row }
{
    let parts = Parts { parts };
    match query {
        Query::Rows { .. } | Query::Total { .. } if !parts.fit(row.len()) => None,
        Query::Rows { range } => Some(parts.write_rows(range, row)),
        Query::Total { range } => Some(parts.add_up(range)),
        Query::Shared { range, .. } => parts.compare(range, row),
    }
}

impl Parts<'_> {
    // Whether a row of this length has room for all that the parts hold.
    fn fit(&self, long: usize) -> bool
        ensures { result ≡ row_has_room self.now long }
    {
        self.parts.len() <= COMPARTMENTS && long >= HEADER && self.has_room(long - HEADER)
    }

    fn has_room(&self, room: usize) -> bool
        ensures { result ≡ nat_le (lengths self.now) room }
    {
        let mut left = room;
        for part in self.parts {
            let Some(rest) = left.checked_sub(part.len()) else {
                return false;
            };
            left = rest;
        }
        true
    }

    // Writes a header that says how many rows of each part are in the range, and these rows.
    fn write_rows(&self, range: KeyRange, row: &mut [u64]) -> Outcome
        requires { row_has_room self.now (length row.old) ≡ true }
        ensures told { result ≡ rows_outcome range self.now }
        ensures after { row.new ≡ written_lists range self.now row.old }
    {
        let (header, body) = row.split_at_mut(HEADER);
        header.fill(0);
        let examined = self.collect(range, header, body);
        Outcome {
            answered: AnswerSummary::Rows {
                compartments: self.parts.len(),
            },
            examined,
        }
    }

    // The counts and the rows, part after part.
    fn collect(&self, range: KeyRange, header: &mut [u64], body: &mut [u64]) -> usize
        requires heads { length self.now ≤ length header.old }
        requires room { lengths self.now ≤ length body.old }
        ensures told { result ≡ count_in range self.now }
        ensures heads { header.new ≡ counts range self.now ++ drop (length self.now) header.old }
        ensures rows { body.new ≡ range_parts range self.now ++ drop (length (range_parts range self.now)) body.old }
    {
        let mut at = 0;
        for (i, part) in self.parts.iter().enumerate() {
            let found = rows::range(part, range);
            header[i] = (found.len() / 2) as u64;
            body[at..at + found.len()].copy_from_slice(found);
            at += found.len();
        }
        at / 2
    }

    // How many rows lie in the range, and the sum of their amounts, modulo 2^64.
    fn add_up(&self, range: KeyRange) -> Outcome
        requires { lengths self.now < 2 ^ 64 }
        ensures { result ≡ total_outcome range self.now }
    {
        let mut rows = 0;
        let mut amount = 0u64;
        for part in self.parts {
            let found = rows::total(rows::range(part, range));
            rows += found.rows;
            amount = amount.wrapping_add(found.amount);
        }
        Outcome {
            answered: AnswerSummary::Total { rows, amount },
            examined: rows,
        }
    }

    // Two parts are lent where both are seen. Of the first all rows may be told.
    fn compare(&self, range: KeyRange, row: &mut [u64]) -> Option<Outcome>
        ensures told { result ≡ (shared_result range self.now row.old).told }
        ensures after { row.new ≡ (shared_result range self.now row.old).row }
    {
        let [a, b] = self.parts else {
            return Some(Outcome {
                answered: AnswerSummary::NotSeen,
                examined: 0,
            });
        };
        let lent = Parts { parts: &[a] };
        if !lent.fit(row.len()) {
            return None;
        }
        Some(write_shared(a, b, range, row))
    }
}

// Writes a header that says how many rows of `a` in the range have keys that are in `b`, and these rows.
fn write_shared(a: &[u64], b: &[u64], range: KeyRange, row: &mut [u64]) -> Outcome
    requires { HEADER + length a.now ≤ length row.old }
    ensures told { result ≡ list_outcome range a.now b.now }
    ensures after { row.new ≡ written_list (common_rows (range_part range a.now) b.now) row.old }
{
    let found = rows::range(a, range);
    let (header, body) = row.split_at_mut(HEADER);
    let rows = rows::shared(found, b, body).unwrap();
    header.fill(0);
    header[0] = rows as u64;
    Outcome {
        answered: AnswerSummary::Shared { rows },
        examined: found.len() / 2 + b.len() / 2,
    }
}
