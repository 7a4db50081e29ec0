ghost use Rattle.std.specs.Prelude.{◌≡◌, ◌≤◌, length, IfOk};
ghost use Rattle.std.specs.Result.{result_map_both};
ghost use Rattle.lexer.specs.Faults.{Gives};
ghost use Rattle.payload_text.specs.Notation.{entry_of, numbered_of};

use lexer::{Class, Expected, Fault, Misread, narrow_number, split, stopped_at};
use std::alloc::Global;
use tlv::{Tag, short_header};
use tlv_writer::append_entry;

/// An entry in shortest form; one that is too long is told at `text`.
#[tactic(auto, unfolding(crate::specs::Notation::entry_of))]
pub fn encode(heap: Global, tag: Tag, text: &[u8], value: &[u8]) -> Result<Vec<u8>, Fault<Misread>>
    ensures { Gives result (entry_of tag.kind tag.id text.now value.now) }
{
    let too_long = stopped_at(Expected::ShorterValue, text);
    let (_, size) = short_header(tag, value.len()).map_err(|_| too_long)?;
    let mut bytes = vec![in heap; 0; size + value.len()]?;
    append_entry(&mut bytes, 0, tag, value).unwrap();
    Ok(bytes)
}

/// The number at the front, and the text behind it.
pub fn numbered(text: &[u8]) -> Result<(u16, &[u8]), Misread>
    ensures reads { result_map_both (λ n. (n.0, n.1.now)) (λ e. e) result ≡ numbered_of text.now }
    ensures within { IfOk result (λ n. length n.1.now ≤ length text.now) }
{
    let (digits, rest) = split(Class::Digit, text);
    let id = narrow_number(digits).ok_or(stopped_at(Expected::Number, text))?;
    Ok((id, rest))
}
