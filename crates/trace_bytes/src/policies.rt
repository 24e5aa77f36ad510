// How a policy lies in bytes.
ghost use Rattle.std.specs.Prelude.{◌≡◌, ◌+◌, ◌≤◌, ◌++◌, OnOk, slice_index};
ghost use Rattle.trace_bytes.specs.PolicyNumbers.{layout_by_counts, policy_bytes, policy_layout, single_numbers};

use crate::layout::{Layout, first_part};
use crate::numbers::{byte_at, push_numbers};
use base::{COMPARTMENTS, USERS};
use policy::{COUNTS, USER};
use std::alloc::AllocError;

/// How many rows a compartment may have in a trace, at most.
pub const CAPACITY: u64 = 64;

// The numbers of the largest policy: the counts, those of each user, and a capacity for each compartment.
pub(crate) const MOST_NUMBERS: usize = COUNTS + USER * USERS + COMPARTMENTS;

// By how many users and compartments there are; where a count is out of bounds no more is read, since no policy has it.
pub(crate) fn policy_layout(users: u64, compartments: u64) -> Layout
    ensures value { result ≡ layout_by_counts users compartments }
    ensures few { result.single + result.wide ≤ 594 }
    ensures width { result.width ≤ 8 }
{
    if users > USERS as u64 || compartments > COMPARTMENTS as u64 {
        return Layout {
            single: COUNTS as u16,
            wide: 0,
            width: 2,
        };
    }
    Layout {
        single: (COUNTS + USER * users as usize) as u16,
        wide: compartments as u8,
        width: 2,
    }
}

// How the policy at the front of the bytes lies in them.
pub(crate) fn layout_in(bytes: &[u8]) -> Layout
    ensures value { result ≡ policy_layout bytes.now }
    ensures few { result.single + result.wide ≤ 594 }
{
    policy_layout(byte_at(bytes, 0).into(), byte_at(bytes, 1).into())
}

// A missing number counts as 0.
fn number_at(numbers: &[u64], place: usize) -> u64
    ensures { result ≡ slice_index numbers.now place }
{
    numbers.get(place).copied().unwrap_or(0)
}

/// How many numbers of a policy come before the capacities; a count of users that is out of bounds announces none.
pub fn single_numbers(numbers: &[u64]) -> usize
    ensures { result ≡ single_numbers numbers.now }
{
    let users = number_at(numbers, 0);
    if users > USERS as u64 {
        COUNTS
    } else {
        COUNTS + USER * users as usize
    }
}

// Writes all the numbers of a policy, also those that its counts have no place for.
pub(crate) fn push_policy(bytes: &mut Vec<u8>, numbers: &[u64]) -> Result<(), AllocError>
    ensures { OnOk result (bytes.new.items ≡ bytes.old.items ++ policy_bytes numbers.now) }
{
    let (single, capacities) = first_part(numbers, single_numbers(numbers));
    push_numbers(bytes, 1, single)?;
    push_numbers(bytes, 2, capacities)
}
