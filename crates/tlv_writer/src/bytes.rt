ghost use Rattle.std.specs.Prelude.{◌≡◌, ◌+◌, ◌≤◌, length};
ghost use Rattle.std.specs.Int.{bytes_high_first};
ghost use Rattle.tlv_writer.specs.Write.{written};

// Each is lent the buffer and told the offset, because a device's memory is fixed.

/// Copies `bytes` to `at`, and answers where they end.
pub fn put(out: &mut [u8], at: usize, bytes: &[u8]) -> usize
    requires { at + length bytes.now ≤ length out.old }
    ensures ends { result ≡ at + length bytes.now }
    ensures writes { out.new ≡ written out.old at bytes.now }
{
    let end = at + bytes.len();
    out[at..end].copy_from_slice(bytes);
    end
}

/// The lowest `size` bytes of a number, high byte first; answers where they end.
#[tactic(auto, using(crate::proofs::Writes::low_bytes))]
pub fn put_number(out: &mut [u8], at: usize, number: usize, size: usize) -> usize
    requires held { size ≤ 8 }
    requires room { at + size ≤ length out.old }
    ensures ends { result ≡ at + size }
    ensures writes { out.new ≡ written out.old at (bytes_high_first size number) }
{
    // One and two bytes are what nearly every header takes: as arrays they are stored, and not copied.
    match number.to_be_bytes() {
        [.., low] if size == 1 => put(out, at, &[low]),
        [.., high, low] if size == 2 => put(out, at, &[high, low]),
        _ if size == 0 => at,
        bytes => put(out, at, &bytes[8 - size..]),
    }
}
