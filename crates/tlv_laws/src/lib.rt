//! The laws of the entry layer, on the calls that a program makes.
#![tactic(auto)]

mod payload;
mod worked;

pub use payload::{rewrite, well_formed};
pub use worked::worked_bytes_hold;
