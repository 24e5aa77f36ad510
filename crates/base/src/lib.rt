//! What all floors share: refusals with their numbers and places, lists in arrays, and how many users and compartments
//! there may be.
#![tactic(auto)]

mod array_list;
mod refusal;
mod sizes;

pub use array_list::ArrayList;
pub use refusal::Refusal;
pub use sizes::{COMPARTMENTS, USERS};
