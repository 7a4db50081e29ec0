//! The shortest form of a payload: the same entries, each header as short as it can be.
#![tactic(auto)]

mod form;
mod level;

pub use form::shortest_form;
