//! Entries (type, identifier, length, value) as LwM2M puts them into payloads:
//! reading them, and checking that a payload is made of nothing else.
#![tactic(auto)]

mod entries;
mod fault;
mod grammar;
mod header;
mod limit;
mod walk;

pub use entries::{Entry, entry_at};
pub use fault::{CallFault, EntryFault, PayloadFault};
pub use grammar::{Container, accept_payload, check_payload};
pub use header::{Header, Kind, Tag, read_header, short_header};
pub use walk::Entries;
