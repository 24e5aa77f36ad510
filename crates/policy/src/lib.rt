//! Who sees what, who writes where, and where rows may flow: a policy is read and judged once.
//!
//! `Policy::read` takes a policy in numbers, `Policy::from_views` the same as views, places to write and capacities.
#![tactic(auto)]

ghost use Rattle.std.specs.Prelude.{◌≡◌, ◌≤◌, true, length, take};
ghost use Rattle.policy.specs.Layout.{starts_from, end_from};
ghost use Rattle.policy.specs.Policies.{flow_table, all_valid, all_within, capacities_in, starts_in};

mod access;
mod contract;
mod judge;
pub mod laws;
mod numbers;
mod place;
mod read;
mod sizes;
mod tables;
mod views;

use base::{COMPARTMENTS, USERS};
pub use contract::Contract;
pub use place::{Place, VERSION_LIMIT, Written};
pub use sizes::{CACHE, CAPACITY, COUNTS, USER};
pub use views::View;

/// A policy that was judged, with all that a request asks of it worked out.
#[repr(C)]
#[derive(Clone, Copy)]
pub struct Policy {
    // The first `users` contracts and the first `compartments` places count. They are plain arrays with a count
    // beside them, as C has them, and no `ArrayList`s: that every policy is valid is a law over policies as values,
    // from the facts of these fields.
    users: usize,
    compartments: usize,
    contracts: [Contract; USERS],
    places: [Place; COMPARTMENTS],
    // Where the caches begin, behind the compartments.
    caches: usize,
    // Whether rows may flow from a to b, at b of row a.
    flows: [[bool; COMPARTMENTS]; COMPARTMENTS],
    ghost contracts_long: { length contracts ≡ 32 },
    ghost places_long: { length places ≡ 16 },
    ghost few_users: { users ≤ 32 },
    ghost few_compartments: { compartments ≤ 16 },
    ghost valid: { all_valid compartments (take users contracts) ≡ true },
    ghost bounded: { all_within 4096 (capacities_in (take compartments places)) ≡ true },
    ghost placed: { starts_in (take compartments places) ≡ starts_from 0 (capacities_in (take compartments places)) },
    ghost behind: { caches ≡ end_from 0 (capacities_in (take compartments places)) },
    ghost near: { caches ≤ 131104 },
    ghost flowing: { flows ≡ flow_table (take users contracts) },
}
