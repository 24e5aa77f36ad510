//! The model of the store: what each request tells and what it changes, and what is proved of it. It has no code.
#![tactic(auto)]

pub mod laws;
