//! A trace in bytes: its policy and its requests, read and written.
#![tactic(auto)]

ghost use Rattle.std.specs.Prelude.{◌≡◌, ◌≤◌, ◌++◌, length, min, drop, IfOk};
ghost use Rattle.policy.specs.Numbers.{policy_fault};
ghost use Rattle.policy.specs.Read.{ReadsPolicy, why};
ghost use Rattle.trace_bytes.specs.Bytes.{size};
ghost use Rattle.trace_bytes.specs.PolicyNumbers.{policy_layout, policy_numbers, policy_of};
ghost use Rattle.trace_bytes.specs.Written.{trace_bytes};

mod item;
pub mod laws;
mod layout;
mod numbers;
mod policies;
mod requests;

use base::Refusal;
pub use item::Next;
pub use policies::{CAPACITY, single_numbers};
use policies::{MOST_NUMBERS, layout_in, push_policy};
use policy::Policy;
use request::Request;
pub use requests::next;
use requests::push_requests;
use std::alloc::{AllocError, Global};

/// A trace whose policy was read, and the bytes of the requests behind it.
#[derive(Clone, Copy)]
pub struct Opening<'a> {
    pub policy: Policy,
    pub requests: &'a [u8],
}

/// Reads the policy at the front of the bytes, with capacities of at most `most` rows, and never more than 4,096.
pub fn open(bytes: &[u8], most: u64) -> Result<Opening<'_>, Refusal>
    ensures refused { why result ≡ policy_fault (min most 4096) (policy_of bytes.now) }
    ensures reads { IfOk result (λ opening. ReadsPolicy (policy_of bytes.now) opening.policy) }
    ensures behind { IfOk result (λ opening. opening.requests.now ≡ drop (size (policy_layout bytes.now)) bytes.now) }
{
    let layout = layout_in(bytes);
    match Policy::read(layout.read(bytes, &mut [0; MOST_NUMBERS]), most) {
        Ok(policy) => Ok(Opening {
            policy,
            requests: bytes.get(layout.size()..).unwrap_or(&[]),
        }),
        Err(refusal) => Err(refusal),
    }
}

/// The numbers of the policy at the front of the bytes, as far as they are there, and how many these are.
/// Where `numbers` has no place for the largest policy, nothing is written.
pub fn policy_numbers(bytes: &[u8], numbers: &mut [u64]) -> usize
    ensures within { result ≤ length numbers.old }
    ensures count { result ≡ length (policy_numbers (length numbers.old) bytes.now) }
    ensures after { numbers.new ≡ policy_numbers (length numbers.old) bytes.now ++ drop result numbers.old }
{
    if numbers.len() < MOST_NUMBERS {
        return 0;
    }
    layout_in(bytes).fill(bytes, numbers)
}

/// How many bytes the policy takes: where the requests begin.
pub fn policy_length(bytes: &[u8]) -> usize
    ensures { result ≡ size (policy_layout bytes.now) }
{
    let policy = layout_in(bytes);
    policy.size()
}

/// The bytes of a trace, in memory of their own: nothing else is written, also where memory runs out.
pub fn write(heap: Global, numbers: &[u64], requests: &[Request]) -> Result<Vec<u8>, AllocError>
    ensures { IfOk result (λ bytes. bytes.items ≡ trace_bytes numbers.now requests.now) }
{
    let mut bytes = Vec::new(heap);
    push_policy(&mut bytes, numbers)?;
    push_requests(&mut bytes, requests)?;
    Ok(bytes)
}

#[cfg(test)]
mod tests {
    use super::*;
    use query::Query;
    use rows::KeyRange;
    use std::test::Fail;

    #[test]
    fn reads_requests(rt: HostRuntime) {
        assert!(rt;
            matches!(
                next(&[0, 31, 1, 0, 0, 0, 255, 255, 255, 255, 7]),
                Next::Request { length: 10, .. }
            )
        );
        assert!(rt; matches!(next(&[1, 5, 1, 0, 0, 0]), Next::Request { length: 6, .. }));
        assert!(rt;
            matches!(
                next(&[2, 5, 15, 0, 0, 0, 1, 0, 0, 0, 2, 0, 0, 0]),
                Next::Request { length: 14, .. }
            )
        );
        assert!(rt;
            matches!(
                next(&[3, 5, 1, 1, 0, 0, 0, 2, 0, 0, 0]),
                Next::Request { length: 11, .. }
            )
        );
    }

    #[test]
    fn goes_on_behind_a_fault(rt: HostRuntime) {
        assert_eq!(rt;
            next(&[1, 32, 1, 0, 0, 0]),
            Next::Fault {
                user: 32,
                place: 1,
                length: 6
            }
        );
        assert_eq!(rt;
            next(&[2, 5, 16, 0, 0, 0, 1, 0, 0, 0, 2, 0, 0, 0]),
            Next::Fault {
                user: 5,
                place: 2,
                length: 14
            }
        );
        assert_eq!(rt;
            next(&[2, 5, 0, 1, 0, 0, 1, 0, 0, 0, 2, 0, 0, 0]),
            Next::Fault {
                user: 5,
                place: 2,
                length: 14
            }
        );
    }

    #[test]
    fn ends_at_the_lowest_fault(rt: HostRuntime) {
        assert_eq!(rt; next(&[]), Next::End { place: 0 });
        assert_eq!(rt; next(&[4, 200, 9]), Next::End { place: 0 });
        assert_eq!(rt; next(&[3, 200, 9]), Next::End { place: 1 });
        assert_eq!(rt; next(&[3, 31, 3]), Next::End { place: 2 });
        assert_eq!(rt; next(&[3, 200]), Next::End { place: 1 });
        assert_eq!(rt; next(&[0, 31, 1, 0, 0]), Next::End { place: 2 });
        assert_eq!(rt; next(&[0, 31, 1, 0, 0, 0, 1, 0, 0]), Next::End { place: 3 });
    }

    #[test]
    fn reads_policies(rt: HostRuntime) {
        let bytes = [
            1, 1, 1, 0, 0, 0, 0, 0, 0, 0, 0, 0, 0, 0, 0, 0, 0, 0, 0, 0, 1, 2, 7,
        ];
        assert!(rt; refused_policy(&bytes, 513).is_none());
        assert_eq!(rt;
            refused_policy(&bytes, 512),
            Some(Refusal::OutOfBounds { place: 20 })
        );
        assert_eq!(rt;
            refused_policy(&bytes[0..21], 513),
            Some(Refusal::OutOfBounds { place: 20 })
        );
        assert_eq!(rt;
            refused_policy(&[33, 1, 7], 64),
            Some(Refusal::OutOfBounds { place: 0 })
        );
    }

    #[test]
    fn reads_the_numbers_of_policies(rt: HostRuntime) {
        let mut numbers = [5; 594];
        assert_eq!(rt; policy_numbers(&[33, 1, 7], &mut numbers), 2);
        let bytes = [
            1, 1, 1, 0, 0, 0, 0, 0, 0, 0, 0, 0, 0, 0, 0, 0, 0, 0, 0, 0, 1, 2,
        ];
        assert_eq!(rt; policy_numbers(&bytes, &mut numbers), 21);
        assert_eq!(rt; numbers[20], 513);
        assert_eq!(rt; numbers[21], 5);
        assert_eq!(rt; policy_length(&bytes), 22);
        assert_eq!(rt; policy_numbers(&bytes, &mut numbers[0..593]), 0);
    }

    // Why the policy is refused, if it is; what is behind one that is read is the 7.
    fn refused_policy(bytes: &[u8], most: u64) -> Option<Refusal> {
        match open(bytes, most) {
            Ok(opening) => (opening.requests != [7].as_slice()).then_some(Refusal::OutOfBounds {
                place: 99,
            }),
            Err(refusal) => Some(refusal),
        }
    }

    #[test]
    fn writes_what_it_reads(rt: HostRuntime) -> Result<(), Fail> {
        let range = KeyRange {
            from: 1,
            to: 0xffff_ffff,
        };
        let requests = [
            Request::Delete { user: 31, key: 258 },
            Request::Query {
                user: 0,
                query: Query::Shared { a: 15, b: 0, range },
            },
        ];
        let bytes = write(rt.alloc(), &[0, 2, 64, 513], &requests)?;
        assert!(rt;
            bytes.as_slice()
                == [
                    0, 2, 64, 0, 1, 2, //
                    1, 31, 2, 1, 0, 0, //
                    3, 0, 2, 15, 0, 0, 0, 0, 0, 0, 0, 1, 0, 0, 0, 255, 255, 255, 255,
                ]
                .as_slice()
        );
        assert_eq!(rt;
            next(&bytes.as_slice()[6..]),
            Next::Request {
                request: requests[0],
                length: 6
            }
        );
        Ok(())
    }

    #[test]
    fn writes_numbers_without_a_place(rt: HostRuntime) -> Result<(), Fail> {
        let bytes = write(rt.alloc(), &[33, 1, 7], &[])?;
        assert!(rt; bytes.as_slice() == [33, 1, 7, 0].as_slice());
        let bytes = write(rt.alloc(), &[0, 2, 64, 513, 9], &[])?;
        assert!(rt; bytes.as_slice() == [0, 2, 64, 0, 1, 2, 9, 0].as_slice());
        let bytes = write(rt.alloc(), &[0, 17, 5, 6], &[])?;
        assert!(rt; bytes.as_slice() == [0, 17, 5, 0, 6, 0].as_slice());
        let bytes = write(rt.alloc(), &[1, 17, 7], &[])?;
        assert!(rt; bytes.as_slice() == [1, 17, 7].as_slice());
        Ok(())
    }
}
