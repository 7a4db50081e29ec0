//! Running the lines of a scenario: what each one prints.
//! Texts are bytes and no &str, because what comes in may be any bytes.
#![tactic(auto)]

mod answers;
mod intake;
mod listing;
mod running;
mod text;

pub use intake::take_in;
pub use running::Session;
