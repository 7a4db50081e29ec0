ghost use Rattle.std.specs.Prelude.{◌≡◌, ◌≤◌};
ghost use Rattle.tlv.specs.Walk.{entries_left, walked};
ghost use Rattle.session.specs.Printed.{Wrote};
ghost use Rattle.session.specs.Listing.{bytes_text, printable, quoted_text, value_text, entry_text, listing};

use crate::text::{Append, put_hex};
use integer::to_number;
use std::alloc::AllocError;
use tlv::{Entries, Entry};

// Bytes in hexadecimal, a dash for none.
fn put_bytes(out: &mut Vec<u8>, bytes: &[u8]) -> Result<(), AllocError>
    ensures { Wrote out.old.items result (bytes_text bytes.now) out.new.items }
{
    if bytes.is_empty() {
        out.extend_from_slice(b"-")
    } else {
        put_hex(out, bytes)
    }
}

fn is_printable(bytes: &[u8]) -> bool
    ensures { result ≡ printable bytes.now }
{
    bytes.iter().all(|b| matches!(*b, b' '..=b'~'))
}

fn put_quoted(out: &mut Vec<u8>, bytes: &[u8]) -> Result<(), AllocError>
    ensures { Wrote out.old.items result (quoted_text bytes.now) out.new.items }
{
    if bytes.is_empty() || !is_printable(bytes) {
        return Ok(());
    }
    out.extend_from_slice(b" \"")?;
    out.extend_from_slice(bytes)?;
    out.extend_from_slice(b"\"")
}

// A value: its bytes, and the number and the text that they stand for.
fn put_value(out: &mut Vec<u8>, v: &[u8]) -> Result<(), AllocError>
    ensures { Wrote out.old.items result (value_text v.now) out.new.items }
{
    out.extend_from_slice(b" ")?;
    put_bytes(out, v)?;
    if let Some(n) = to_number(v) {
        write!(out, " {n}")?;
    }
    put_quoted(out, v)
}

// The line of one of these entries.
fn put_entry(
    out: &mut Vec<u8>,
    depth: usize,
    entries: Entries<'_>,
    e: Entry,
) -> Result<(), AllocError>
    requires { depth ≤ 2 }
    ensures { Wrote out.old.items result (entry_text depth (walked entries.entry) e) out.new.items }
{
    out.resize(out.len() + 2 * depth, b' ')?;
    write!(out, "@{} {} {}", e.place, e.kind, e.id)?;
    if e.kind.contents().is_none() {
        put_value(out, entries.value(e))?;
    }
    out.extend_from_slice(b"\n")
}

/// Entries, so many levels deep, a line each. The levels are counted down, so that the listing ends.
#[tactic(auto, using(crate::proofs::Lines::listings))]
pub fn put_entries(out: &mut Vec<u8>, levels: usize, entries: Entries<'_>) -> Result<(), AllocError>
    requires { levels ≤ 3 }
    ensures { Wrote out.old.items result (listing levels (walked entries.entry) (entries_left entries.entry)) out.new.items }
{
    if levels == 0 {
        return Ok(());
    }
    for e in entries {
        put_entry(out, 3 - levels, entries, e)?;
        if e.kind.contents().is_some() {
            put_entries(out, levels - 1, entries.inside(e))?;
        }
    }
    Ok(())
}
