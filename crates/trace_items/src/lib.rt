//! What follows the policy in a trace: requests, and numbers that are none.
#![tactic(auto)]

mod items;

pub use items::{Item, Items};
