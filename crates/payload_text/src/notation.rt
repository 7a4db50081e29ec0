ghost use Rattle.std.specs.Prelude.{◌≡◌};
ghost use Rattle.lexer.specs.Faults.{Gives};
ghost use Rattle.payload_text.specs.Notation.{has_mark, entries_of, bytes_of, payload_of};

use crate::entries::PayloadEntry;
use crate::items::items;
use crate::piece::Piece;
use lexer::{BadLine, Class, Expected, Fault, Misread, blame, hex_bytes, split, stopped_at};
use std::alloc::Global;

// Whether a text is entries, and not pairs of hexadecimal digits.
fn has_mark(text: &[u8]) -> bool
    ensures { result ≡ has_mark text.now }
{
    let (_, rest) = split(Class::Unmarked, text);
    !rest.is_empty()
}

fn entries(heap: Global, text: &[u8]) -> Result<Vec<u8>, Fault<Misread>>
    ensures { Gives result (entries_of text.now) }
{
    let Piece { bytes, rest } = items::<PayloadEntry>(heap, text)?;
    if !rest.is_empty() {
        return Err(stopped_at(Expected::End, rest).into());
    }
    Ok(bytes)
}

fn bytes_of(heap: Global, text: &[u8]) -> Result<Vec<u8>, Fault<Misread>>
    ensures { Gives result (bytes_of text.now) }
{
    match text {
        b"-" => Ok(Vec::new(heap)),
        _ if has_mark(text) => entries(heap, text),
        _ => hex_bytes(heap, text),
    }
}

/// The bytes of a payload's text.
pub fn payload(heap: Global, text: &[u8]) -> Result<Vec<u8>, Fault<BadLine>>
    ensures { Gives result (payload_of text.now) }
{
    bytes_of(heap, text).map_err(|fault| fault.map(|misread| blame(misread, text)))
}
