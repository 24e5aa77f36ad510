// The tables of a policy: where compartments begin, and where rows may flow.
ghost use Rattle.std.specs.Prelude.{◌≡◌, ◌≤◌, true, length, take, drop};
ghost use Rattle.std.specs.List.{list_all};
ghost use Rattle.policy.specs.Layout.{starts_from, end_from};
ghost use Rattle.policy.specs.Policies.{flow_row, flow_table, lets, all_within, capacities_in, starts_in};

use super::{Contract, Place};
use base::COMPARTMENTS;
use std::array::from_fn;

// Writes where compartments of these capacities lie, consecutively, and returns where the last ends.
pub(crate) fn place(places: &mut [Place], capacities: &[u64]) -> usize
    requires fits { length capacities.now ≤ length places.old }
    requires few { length capacities.now ≤ 16 }
    requires bounded { all_within 4096 capacities.now ≡ true }
    ensures capacities { capacities_in (take (length capacities.now) places.new) ≡ capacities.now }
    ensures starts { starts_in (take (length capacities.now) places.new) ≡ starts_from 0 capacities.now }
    ensures end { result ≡ end_from 0 capacities.now }
    ensures behind { drop (length capacities.now) places.new ≡ drop (length capacities.now) places.old }
{
    let mut end = 0;
    // By index, since a proof knows no elements after `zip` with `iter_mut`.
    for (i, capacity) in capacities.iter().enumerate() {
        let capacity = *capacity as usize;
        places[i] = Place {
            start: end,
            capacity,
        };
        end += 2 + 2 * capacity;
    }
    end
}

// The table of flows, row by row.
pub(crate) fn flows(contracts: &[Contract]) -> [[bool; COMPARTMENTS]; COMPARTMENTS]
    ensures { result ≡ flow_table contracts.now }
{
    from_fn(
        |a: usize| -> [bool; COMPARTMENTS]
            ensures { result ≡ flow_row contracts.entry.now a }
        { flows_from(contracts, a as u64) },
    )
}

// To which compartments rows may flow from one.
fn flows_from(contracts: &[Contract], a: u64) -> [bool; COMPARTMENTS]
    ensures { result ≡ flow_row contracts.now a }
{
    from_fn(
        |b: usize| -> bool
            ensures { result ≡ list_all (lets a b) contracts.entry.now }
        { may_flow(contracts, a, b as u64) },
    )
}

// Whoever sees b sees a.
fn may_flow(contracts: &[Contract], a: u64, b: u64) -> bool
    ensures { result ≡ list_all (lets a b) contracts.now }
{
    contracts.iter().all(|contract| lets_flow(contract, a, b))
}

// This user sees a if they see b.
fn lets_flow(contract: &Contract, a: u64, b: u64) -> bool
    ensures { result ≡ lets a b contract.now }
{
    !contract.sees(b) || contract.sees(a)
}
