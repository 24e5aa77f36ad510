//! What the programs share: what their command lines ask for, what they read, and how they end.
#![tactic(auto)]

mod flag;
mod input;
mod program;
mod reason;
mod stop;

pub use flag::Flag;
pub use input::{file_of, read};
pub use program::{Program, VERSION};
pub use stop::{Stop, status};
