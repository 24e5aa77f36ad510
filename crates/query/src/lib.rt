//! Queries over what a user sees, their answers, and the rows that answering examines.
#![tactic(auto)]

ghost use Rattle.std.specs.Prelude.{◌≡◌};
ghost use Rattle.query.specs.Query.{range_of};

use rows::KeyRange;

pub mod laws;
mod parts;
mod scope;

pub use parts::answer;
pub use scope::Scope;

/// How many numbers of an answer row come before the rows.
pub const HEADER: usize = 32;

/// What may be asked of the compartments in a user's view.
#[derive(Clone, Copy, PartialEq, Eq, Debug)]
pub enum Query {
    /// The rows of the range, compartment by compartment.
    Rows { range: KeyRange },
    /// How many these are, and the sum of their amounts.
    Total { range: KeyRange },
    /// The rows of `a` in the range whose keys are in `b`.
    Shared { a: u64, b: u64, range: KeyRange },
}

impl Query {
    /// The keys that it asks for.
    pub fn range(self) -> KeyRange
        ensures { result ≡ range_of self }
    {
        match self {
            Query::Rows { range } | Query::Total { range } | Query::Shared { range, .. } => range,
        }
    }
}

/// What was answered. Rows are in the answer row: a header of 32 numbers, then key and amount of each row. What the
/// answer row holds after the last row stays as it was.
#[derive(Clone, Copy, PartialEq, Eq, Debug)]
pub enum AnswerSummary {
    /// Place i of the header says how many rows are of the i-th compartment of the view, for each of them, and the rest
    /// of the header is 0; the rows are in the same order.
    Rows { compartments: usize },
    /// The sum is modulo 2^64. The row stays as it was.
    Total { rows: usize, amount: u64 },
    /// Place 0 of the header says how many rows there are, and the rest of the header is 0.
    Shared { rows: usize },
    /// The user does not see both compartments. The row stays as it was.
    NotSeen,
}

/// An answer, and how many rows were examined for it.
#[derive(Clone, Copy, PartialEq, Eq, Debug)]
pub struct Outcome {
    pub answered: AnswerSummary,
    pub examined: usize,
}

#[cfg(test)]
mod tests {
    use super::*;
    use policy::Policy;

    const ALL: KeyRange = KeyRange {
        from: 0,
        to: u32::MAX,
    };

    const SOME: KeyRange = KeyRange { from: 2, to: 5 };

    // One user, who sees compartments 2 and 0 of three.
    #[test]
    fn looks_at_what_is_seen(rt: HostRuntime) {
        let numbers = [
            1, 3, 2, 2, 0, 0, 0, 0, 0, 0, 0, 0, 0, 0, 0, 0, 0, 0, 0, 2, 10, 20, 30,
        ];
        let policy = Policy::read(&numbers, 4096).expect(&rt, "a policy");
        let contract = policy.contract(0).expect(&rt, "a user");
        let rows = Scope::of(contract, Query::Rows { range: ALL });
        assert!(rt; rows.compartments() == [2, 0].as_slice());
        assert_eq!(rt; rows.needed(&policy), Some(112));
        let (a, b, range) = (0, 2, ALL);
        let seen = Scope::of(contract, Query::Shared { a, b, range });
        assert!(rt; seen.compartments() == [0, 2].as_slice());
        assert_eq!(rt; seen.needed(&policy), Some(52));
        let b = 1;
        let query = Query::Shared { a, b, range };
        let unseen = Scope::of(contract, query);
        assert!(rt; unseen.compartments().is_empty());
        assert_eq!(rt; unseen.needed(&policy), None);
        assert_eq!(rt; query.range(), ALL);
    }

    #[test]
    fn tells_rows(rt: HostRuntime) {
        let a = [1, 10, 5, 50];
        let b = [2, 20, 5, 51, 9, 90];
        let parts = [&a[0..4], &b[0..6]];
        let mut row = [7; 43];
        let query = Query::Rows { range: SOME };
        assert_eq!(rt; answer(query, &parts, &mut row[0..41]), None);
        assert!(rt; row == [7; 43]);
        let told = Outcome {
            answered: AnswerSummary::Rows { compartments: 2 },
            examined: 3,
        };
        assert_eq!(rt; answer(query, &parts, &mut row), Some(told));
        assert!(rt; row[0..3] == [1, 2, 0]);
        assert!(rt; row[31..43] == [0, 5, 50, 2, 20, 5, 51, 7, 7, 7, 7, 7]);
    }

    #[test]
    fn adds_up(rt: HostRuntime) {
        let a = [1, 10, 5, 50];
        let mut row = [7; 40];
        let query = Query::Total { range: SOME };
        let told = Outcome {
            answered: AnswerSummary::Total {
                rows: 2,
                amount: 100,
            },
            examined: 2,
        };
        assert_eq!(rt; answer(query, &[&a, &a], &mut row), Some(told));
        assert!(rt; row == [7; 40]);
    }

    #[test]
    fn compares(rt: HostRuntime) {
        let a = [1, 10, 5, 50];
        let b = [2, 20, 5, 51, 9, 90];
        let parts = [&a[0..4], &b[0..6]];
        let mut row = [7; 36];
        let query = Query::Shared {
            a: 0,
            b: 1,
            range: ALL,
        };
        let told = Outcome {
            answered: AnswerSummary::Shared { rows: 1 },
            examined: 5,
        };
        assert_eq!(rt; answer(query, &parts, &mut row), Some(told));
        assert_eq!(rt; row[0], 1);
        assert!(rt; row[31..36] == [0, 5, 50, 7, 7]);
        let told = Outcome {
            answered: AnswerSummary::NotSeen,
            examined: 0,
        };
        assert_eq!(rt; answer(query, &[], &mut []), Some(told));
    }
}
