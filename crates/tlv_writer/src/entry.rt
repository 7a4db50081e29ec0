ghost use Rattle.std.specs.Prelude.{◌≡◌, length};
ghost use Rattle.tlv.specs.Header.{short_header};
ghost use Rattle.tlv_writer.specs.Write.{append_answer, append_leaves, write_leaves, encoded};

use crate::bytes::{put, put_number};
use reason::Reason;
use tlv::{Tag, short_header};

// The caller lends the buffer and keeps the offset, because a device's memory is fixed; and no cursor knows
// itself inside, because an offset past the end is refused like a full buffer.

/// The header of a value of `len` bytes, in shortest form, at `at`; answers where it ends.
/// A refusal leaves the buffer as it was.
pub fn append_header(out: &mut [u8], at: usize, tag: Tag, len: usize) -> Result<usize, Reason>
    ensures answers { result ≡ append_answer (length out.old) at len (short_header tag.kind tag.id len) }
    ensures writes { out.new ≡ append_leaves result out.old at (short_header tag.kind tag.id len) }
{
    let (t, size) = short_header(tag, len)?;
    if out.len().saturating_sub(at) < size {
        return Err(Reason::NoRoom);
    }
    let id_size = if tag.id < 256 { 1 } else { 2 };
    let id_at = put(out, at, &[t]);
    let len_at = put_number(out, id_at, tag.id as usize, id_size);
    Ok(put_number(out, len_at, len, size - 1 - id_size))
}

/// One entry in shortest form at `at`, for replies of many entries; answers where it ends.
/// A refusal leaves the buffer as it was.
pub fn append_entry(out: &mut [u8], at: usize, tag: Tag, value: &[u8]) -> Result<usize, Reason>
    ensures answers { result ≡ append_answer (length out.old) at (length value.now) (encoded tag.kind tag.id value.now) }
    ensures writes { out.new ≡ append_leaves result out.old at (encoded tag.kind tag.id value.now) }
{
    let (_, size) = short_header(tag, value.len())?;
    if out.len().saturating_sub(at) < size + value.len() {
        return Err(Reason::NoRoom);
    }
    let value_at = append_header(out, at, tag, value.len())?;
    Ok(put(out, value_at, value))
}

/// One entry in shortest form at the front of the buffer, and zeros behind it; answers its length.
/// A refusal leaves zeros alone.
#[tactic(auto, using(crate::proofs::Writes::leaves_padded))]
pub fn write_entry(out: &mut [u8], tag: Tag, value: &[u8]) -> Result<usize, Reason>
    ensures answers { result ≡ append_answer (length out.old) 0 (length value.now) (encoded tag.kind tag.id value.now) }
    ensures writes { out.new ≡ write_leaves result (length out.old) (encoded tag.kind tag.id value.now) }
{
    out.fill(0);
    append_entry(out, 0, tag, value)
}
