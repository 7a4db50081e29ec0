//! Writing entries in their shortest form into a lent buffer.
#![tactic(auto)]

mod bytes;
mod entry;

pub use entry::{append_entry, append_header, write_entry};
