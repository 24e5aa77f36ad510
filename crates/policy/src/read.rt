// Reading a policy: it is judged once, and what later calls need is worked out.
ghost use Rattle.std.specs.Prelude.{◌≡◌, min, IfOk};
ghost use Rattle.policy.specs.Numbers.{policy_fault};
ghost use Rattle.policy.specs.Read.{Stand, ReadsPolicy, why};

use super::{CAPACITY, Contract, Place, Policy, judge, tables};
use crate::numbers::Numbers;
use base::{COMPARTMENTS, Refusal, USERS};

impl Policy {
    /// The policy that the numbers hold, with capacities of at most `most` rows, and never more than 4,096.
    pub fn read(numbers: &[u64], most: u64) -> Result<Policy, Refusal>
        ensures refused { why result ≡ policy_fault (min most 4096) numbers.now }
        ensures reads { IfOk result (λ p. ReadsPolicy numbers.now p) }
    {
        let judged = Numbers::judge(numbers, most.min(CAPACITY))?;
        let contracts = judge::contracts(&judged)?;
        Ok(Policy::assemble(&judged, contracts))
    }

    // The policy of numbers and contracts that were judged, with its tables.
    fn assemble(numbers: &Numbers, contracts: [Contract; USERS]) -> Policy
        requires { Stand numbers.now.all.now contracts }
        ensures { ReadsPolicy numbers.now.all.now result }
    {
        let users = numbers.users;
        let mut places = [Place {
            start: 0,
            capacity: 0,
        }; COMPARTMENTS];
        let caches = tables::place(&mut places, numbers.capacities());
        let flows = tables::flows(&contracts[..users]);
        Policy {
            users,
            compartments: numbers.compartments,
            contracts,
            places,
            caches,
            flows,
        }
    }
}
