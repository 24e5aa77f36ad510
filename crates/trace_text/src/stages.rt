// What comes next in a text, by the numbers of the policy so far.
ghost use Rattle.trace_text.specs.Lines.{behind_counts, stage_of};
ghost use Rattle.std.specs.Prelude.{◌≡◌, ◌≤◌};

use policy::{COUNTS, USER};
use trace_bytes::single_numbers;

// What comes next: the numbers so far say where in the policy a line stands.
#[derive(Clone, Copy)]
pub(crate) enum Stage {
    Users,
    Compartments,
    User { user: usize, compartments: u64 },
    Capacity { compartment: usize },
    Requests,
}

pub(crate) fn stage_of(numbers: &[u64]) -> Stage
    ensures { result ≡ stage_of numbers.now }
{
    match numbers {
        [] => Stage::Users,
        [_] => Stage::Compartments,
        [_, compartments, ..] => {
            behind_counts(numbers.len(), single_numbers(numbers), *compartments)
        }
    }
}

// What comes next behind so many numbers, two counts among them.
fn behind_counts(count: usize, single: usize, compartments: u64) -> Stage
    requires { 2 ≤ count }
    ensures { result ≡ behind_counts count single compartments }
{
    if count < single {
        return Stage::User {
            user: (count - COUNTS) / USER,
            compartments,
        };
    }
    let compartment = count - single;
    if (compartment as u64) < compartments {
        Stage::Capacity { compartment }
    } else {
        Stage::Requests
    }
}
