ghost use Rattle.std.specs.Prelude.{◌≡◌};
ghost use Rattle.lexer.specs.Hex.{hex_digit, pair_of, hex_of};
ghost use Rattle.lexer.specs.Faults.{Gives};

use crate::fault::{Expected, Fault, Misread, stopped_at};
use crate::words::skip_blanks;
use std::alloc::Global;

fn hex_digit(c: u8) -> Option<u8>
    ensures { result ≡ hex_digit c }
{
    Some(char::from(c).to_digit(16)? as u8)
}

fn pair(a: u8, b: u8) -> Option<u8>
    ensures { result ≡ pair_of a b }
{
    Some(hex_digit(a)? * 16 + hex_digit(b)?)
}

/// The bytes that pairs of hexadecimal digits write, with blanks between the pairs or none.
#[tactic(auto, using(crate::proofs::Pairs::hex_skips, crate::proofs::Pairs::hex_step, crate::proofs::Pairs::skipped), unfolding(crate::specs::Hex::hex_of))]
pub fn hex_bytes(heap: Global, text: &[u8]) -> Result<Vec<u8>, Fault<Misread>>
    ensures { Gives result (hex_of text.now) }
{
    let mut bytes = Vec::new(heap);
    let mut rest = skip_blanks(text);
    while let [high, low, behind @ ..] = rest {
        let byte = pair(*high, *low).ok_or(stopped_at(Expected::HexPair, rest))?;
        bytes.push(byte)?;
        rest = skip_blanks(behind);
    }
    if rest.is_empty() {
        Ok(bytes)
    } else {
        Err(stopped_at(Expected::HexPair, rest).into())
    }
}
