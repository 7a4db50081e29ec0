ghost use Rattle.std.specs.Prelude.{◌≡◌, ◌+◌, length};
ghost use Rattle.payload_text.specs.Notation.{end_of, quoted_of, plain_bytes, value_of, GivesPart};
ghost use Rattle.lexer.specs.Faults.{Gives};

use crate::piece::Piece;
use integer::KeptInteger;
use lexer::{Class, Expected, Fault, Misread, decimal, hex_bytes, split, stopped_at, strip};
use std::alloc::Global;

/// Whether a value or a block may end before this text.
pub fn end(text: &[u8]) -> Result<(), Misread>
    ensures { result ≡ end_of text.now }
{
    if text.first().is_some_and(|c| Class::Value.holds(*c)) {
        return Err(stopped_at(Expected::Blank, text));
    }
    Ok(())
}

// A text behind its opening quote.
fn quoted(heap: Global, text: &[u8]) -> Result<Piece<'_>, Fault<Misread>>
    ensures { GivesPart result (quoted_of text.now) (length text.now) }
{
    let (inside, rest) = split(Class::Quoted, text);
    let rest = strip(b'"', rest).ok_or(stopped_at(Expected::ClosingQuote, rest))?;
    end(rest)?;
    let bytes = Vec::from_slice(heap, inside)?;
    Ok(Piece { bytes, rest })
}

// A word that is a value without quotes: x and pairs of hexadecimal digits, or a number.
fn plain(heap: Global, word: &[u8]) -> Result<Vec<u8>, Fault<Misread>>
    ensures { Gives result (plain_bytes word.now) }
{
    if let Some(digits) = strip(b'x', word) {
        return hex_bytes(heap, digits);
    }
    let number = decimal(word).ok_or(stopped_at(Expected::Value, word))?;
    let kept = KeptInteger::from(number);
    Ok(Vec::from_slice(heap, kept.as_slice())?)
}

pub fn value(heap: Global, text: &[u8]) -> Result<Piece<'_>, Fault<Misread>>
    ensures { GivesPart result (value_of text.now) (length text.now + 1) }
{
    if let Some(inside) = strip(b'"', text) {
        return quoted(heap, inside);
    }
    let (word, rest) = split(Class::Value, text);
    // A fault of the word is told at its first character.
    let bytes = plain(heap, word).map_err(|fault| fault.map(|e| stopped_at(e.expected, text)))?;
    Ok(Piece { bytes, rest })
}
