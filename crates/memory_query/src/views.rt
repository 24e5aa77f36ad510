// What memory holds of several compartments: versions, the lowest number out of bounds, and rows that are lent.
ghost use Rattle.std.specs.Prelude.{◌≡◌, [], map, length, take};
ghost use Rattle.policy.specs.Views.{view_of};
ghost use Rattle.query.specs.Looks.{scope_compartments};
ghost use Rattle.memory_query.specs.MemoryParts.{lower, lowest_fault, versions_in, parts_in};

use crate::storage::Storage;
use base::{ArrayList, COMPARTMENTS};
use policy::Contract;
use query::Scope;

impl<'a> Storage<'a> {
    // The version of each compartment that a contract lets its user see, and the lowest place in them that is out of
    // bounds, in one pass. The array is the caller's, since one that is given back would be copied on its way; and it is
    // no list, which would store its length anew with each version.
    pub(crate) fn survey(
        &self,
        contract: &Contract,
        versions: &mut [u64; COMPARTMENTS],
    ) -> Option<usize>
        ensures versions { take (length (view_of contract.now)) versions.new
            ≡ versions_in self.now.policy.now self.now.memory.now (view_of contract.now) }
        ensures fault { result ≡ lowest_fault self.now.policy.now self.now.memory.now (view_of contract.now) }
    {
        let mut fault = None;
        for (i, compartment) in contract.view().iter().enumerate() {
            let (version, place) = self.version_and_fault(*compartment);
            versions[i] = version;
            fault = lower(fault, place);
        }
        fault
    }

    // Lends the rows of each compartment that is looked at, and of no other.
    // The list is the caller's, as the array of `survey` is.
    pub(crate) fn lend(&self, scope: &Scope, parts: &mut ArrayList<&'a [u64], COMPARTMENTS>)
        requires { parts.old.items ≡ [] }
        ensures { map (λ x. x.now) parts.new.items
            ≡ parts_in self.now.policy.now self.now.memory.now (scope_compartments scope.now) }
    {
        for compartment in scope.compartments() {
            parts.push(self.rows_of(*compartment)).unwrap();
        }
    }
}

// The lower of two places, where there are two; `min` of two `Option`s is `None` where one of them is.
fn lower(a: Option<usize>, b: Option<usize>) -> Option<usize>
    ensures { result ≡ lower a b }
{
    // Most often there is no second, and then nothing is compared.
    match (a, b) {
        (a, None) => a,
        (None, b) => b,
        (Some(a), Some(b)) => Some(a.min(b)),
    }
}
