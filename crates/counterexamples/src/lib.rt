//! Stores that are the model but for one thing, and of each a promise that it breaks. It has no code.
#![tactic(auto)]

pub mod laws;
pub mod leaking;
pub mod useless;
