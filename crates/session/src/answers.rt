ghost use Rattle.std.specs.Prelude.{◌≡◌, Ok, IfOk};
ghost use Rattle.std.specs.String.{string_bytes};
ghost use Rattle.tlv.specs.Grammar.{verdict};
ghost use Rattle.session.specs.Printed.{Wrote};
ghost use Rattle.session.specs.Answers.{form_text, summary_text, check_text, header_text, integer_text, bad_text};

use crate::listing::put_entries;
use crate::text::{Append, hex_digits, put_hex};
use integer::KeptInteger;
use lexer::BadLine;
use std::alloc::{AllocError, Global};
use tlv::{CallFault, Entries, Tag};
use tlv_laws::{rewrite, well_formed};
use tlv_writer::append_header;

// The word for a payload in shortest form, or its shortest form.
#[tactic(auto, using(crate::proofs::Forms::forms))]
fn form_of(heap: Global, payload: &[u8]) -> Result<String, AllocError>
    requires { verdict payload.now ≡ Ok tt }
    ensures { IfOk result (λ form. string_bytes form ≡ form_text payload.now) }
{
    // A lent buffer, because the writer is the device's, whose memory is fixed.
    let mut form = [0u8; 4096];
    match rewrite(payload, &mut form) {
        Ok(None) => "shortest".to_string(heap),
        Ok(Some(len)) => hex_digits(heap, &form[..len]),
        Err(_) => unreachable!(),
    }
}

// The line of a well-formed payload.
fn put_summary(out: &mut Vec<u8>, payload: &[u8]) -> Result<(), AllocError>
    requires { verdict payload.now ≡ Ok tt }
    ensures { Wrote out.old.items result (summary_text payload.now) out.new.items }
{
    let form = form_of(*out.allocator(), payload)?;
    writeln!(out, "well formed, {} bytes, {form}", payload.len())
}

/// The verdict on a payload, and its entries if it is well formed.
pub fn put_check(out: &mut Vec<u8>, payload: &[u8]) -> Result<(), AllocError>
    ensures { Wrote out.old.items result (check_text payload.now) out.new.items }
{
    match well_formed(payload) {
        Ok(()) => {
            put_summary(out, payload)?;
            put_entries(out, 3, Entries::of_payload(payload))
        }
        Err(fault) => writeln!(out, "{fault}"),
    }
}

/// The shortest header for a kind, an identifier and a length.
pub fn put_header(out: &mut Vec<u8>, tag: Tag, len: usize) -> Result<(), AllocError>
    ensures { Wrote out.old.items result (header_text tag.kind tag.id len) out.new.items }
{
    // A lent buffer, because the writer is the device's, whose memory is fixed.
    let mut header = [0u8; 6];
    match append_header(&mut header, 0, tag, len) {
        Ok(size) => {
            put_hex(out, &header[..size])?;
            out.extend_from_slice(b"\n")
        }
        Err(reason) => writeln!(out, "{}", CallFault::from(reason)),
    }
}

/// A number as it is kept.
pub fn put_integer(out: &mut Vec<u8>, n: i64) -> Result<(), AllocError>
    ensures { Wrote out.old.items result (integer_text n) out.new.items }
{
    put_hex(out, KeptInteger::from(n).as_slice())?;
    out.extend_from_slice(b"\n")
}

/// A bad line: its number, what was expected, and the part of the text at fault.
pub fn put_bad(out: &mut Vec<u8>, number: u64, bad: BadLine, text: &[u8]) -> Result<(), AllocError>
    ensures { Wrote out.old.items result (bad_text number bad text.now) out.new.items }
{
    write!(out, "bad line {number}: {}", bad.expected)?;
    let part = bad.part(text);
    if !part.is_empty() {
        out.extend_from_slice(b": ")?;
        out.extend_from_slice(part)?;
    }
    out.extend_from_slice(b"\n")
}
