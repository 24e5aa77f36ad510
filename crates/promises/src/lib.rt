//! What the store promises of its calls: theorems about every list of requests on memory that was opened.
#![tactic(auto)]

pub mod laws;
