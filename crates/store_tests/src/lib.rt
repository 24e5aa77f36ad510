//! Examples of policies, of the store's calls and of traces, run.
#![tactic(auto)]

#[cfg(test)]
mod played;
#[cfg(test)]
mod policies;
#[cfg(test)]
mod stores;
#[cfg(test)]
mod traces;
#[cfg(test)]
mod worked;

// A policy of three users: 0 sees 0 and 1, 1 sees 1, 2 sees 1 and 2; each writes in the compartment of their number.
// Capacities are 3, 3 and 2; behind a view stand numbers that nobody reads.
const THREE: [u64; 59] = [
    3, 3, //
    2, 0, 1, 9, 9, 9, 9, 9, 9, 9, 9, 9, 9, 9, 9, 9, 9, 0, //
    1, 1, 9, 9, 9, 9, 9, 9, 9, 9, 9, 9, 9, 9, 9, 9, 9, 1, //
    2, 1, 2, 9, 9, 9, 9, 9, 9, 9, 9, 9, 9, 9, 9, 9, 9, 2, //
    3, 3, 2,
];
