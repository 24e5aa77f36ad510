// Which compartments a query looks at, as its user's contract allows, and how long the answer row must be for them.
ghost use Rattle.std.specs.Prelude.{◌≡◌, ◌*◌, ◌≤◌, length};
ghost use Rattle.policy.specs.Access.{rules_of};
ghost use Rattle.policy.specs.Views.{view_of};
ghost use Rattle.query.specs.Looks.{capacity_sum, compartments_for, scope_compartments, pair_scope, scope_row_length, HasRowLength};

use crate::{HEADER, Query};
use policy::{Contract, Policy};

/// What a query looks at: worked out once, by the contract of the user who makes it.
#[derive(Clone, Copy)]
pub enum Scope<'a> {
    /// All that the user sees.
    View(&'a Contract),
    /// The two that are compared; the user sees both.
    Pair([u64; 2]),
    /// Nothing, since the user does not see both.
    Unseen,
}

impl<'a> Scope<'a> {
    /// All that the user sees; for shared the two that are compared, or nothing if the user does not see both.
    pub fn of(contract: &'a Contract, query: Query) -> Scope<'a>
        ensures looks { scope_compartments result ≡ compartments_for (view_of contract.now) query }
        ensures needs { HasRowLength result (view_of contract.now) query }
    {
        match query {
            Query::Rows { .. } | Query::Total { .. } => Scope::View(contract),
            Query::Shared { a, b, .. } => Scope::pair(contract, a, b),
        }
    }

    // Two compartments are compared for a user who sees both.
    fn pair(contract: &Contract, a: u64, b: u64) -> Scope<'a>
        ensures { result ≡ pair_scope (view_of contract.now) a b }
    {
        if contract.sees(a) && contract.sees(b) {
            Scope::Pair([a, b])
        } else {
            Scope::Unseen
        }
    }

    /// The rows of these are lent to answer the query, in this order, and of no others.
    pub fn compartments(&self) -> &[u64]
        ensures value { result.now ≡ scope_compartments self.now }
        ensures few { length result.now ≤ 16 }
    {
        match self {
            Scope::View(contract) => contract.view(),
            Scope::Pair(pair) => pair,
            Scope::Unseen => &[],
        }
    }

    /// How long the answer row must be, by the policy alone; none where the user does not see both, since then the row
    /// is not looked at.
    pub fn needed(&self, policy: &Policy) -> Option<usize>
        ensures { result ≡ scope_row_length (rules_of policy.now).capacity self.now }
    {
        match self {
            Scope::View(contract) => Some(HEADER + 2 * total_capacity(policy, contract)),
            Scope::Pair([a, _]) => Some(HEADER + 2 * capacity(policy, *a)),
            Scope::Unseen => None,
        }
    }
}

fn total_capacity(policy: &Policy, contract: &Contract) -> usize
    ensures value { result ≡ capacity_sum (rules_of policy.now).capacity (view_of contract.now) }
    ensures small { result ≤ 65536 }
{
    let mut sum = 0;
    for seen in contract.view() {
        sum += capacity(policy, *seen);
    }
    sum
}

// A compartment that does not exist has room for no rows.
fn capacity(policy: &Policy, compartment: u64) -> usize
    ensures value { result ≡ (rules_of policy.now).capacity compartment }
    ensures small { result ≤ 4096 }
{
    policy.place(compartment).map_or(0, |place| place.capacity)
}
