//! Characters, words, numbers and lines of a text, and what should have stood where reading stopped.
//! A text is bytes and no &str, because what comes in may be any bytes: whether they are text is a test of
//! its own, whose answer people are told.
#![tactic(auto)]

// Classes of characters, by which a text is split.
mod chars;
// Words, and the blanks between them.
mod words;
// Numbers as they are written.
mod numbers;
// A line: its comment, its blanks, and what makes it text.
mod line;
// What should have stood where reading stopped.
mod fault;
// Pairs of hexadecimal digits.
mod hex;

pub use chars::{Class, split, strip};
pub use fault::{BadLine, Expected, Fault, Misread, blame, stopped_at};
pub use hex::hex_bytes;
pub use line::{LONGEST_LINE, is_text, uncommented};
pub use numbers::{decimal, number};
pub use words::{narrow_number, next_word, skip_blanks};

#[cfg(test)]
mod tests {
    use super::*;
    use std::alloc::Global;
    use std::process::Abort;
    use std::test::Fail;

    // Each case goes through a function without a contract, so that no proof looks into its bytes.
    fn writes(rt: &impl Abort, text: &[u8], most: u64, n: Option<u64>) {
        assert_eq!(rt; number(text, most), n);
    }

    fn writes_signed(rt: &impl Abort, text: &[u8], z: Option<i64>) {
        assert_eq!(rt; decimal(text), z);
    }

    #[test]
    fn edges_of_numbers(rt: HostRuntime) {
        writes(&rt, b"65535", 65_535, Some(65_535));
        writes(&rt, b"65536", 65_535, None);
        writes(&rt, b"0", 65_535, Some(0));
        writes(&rt, b"01", 65_535, None);
        writes(&rt, b"", 65_535, None);
        writes(&rt, b"18446744073709551615", u64::MAX, Some(u64::MAX));
        writes(&rt, b"18446744073709551616", u64::MAX, None);
        writes_signed(&rt, b"9223372036854775807", Some(i64::MAX));
        writes_signed(&rt, b"9223372036854775808", None);
        writes_signed(&rt, b"-9223372036854775808", Some(i64::MIN));
        writes_signed(&rt, b"-9223372036854775809", None);
        writes_signed(&rt, b"-0", Some(0));
        writes_signed(&rt, b"-", None);
    }

    fn writes_narrow(rt: &impl Abort, text: &[u8], n: Option<u16>, wide: Option<u32>) {
        assert_eq!(rt; narrow_number::<u16>(text), n);
        assert_eq!(rt; narrow_number::<u32>(text), wide);
    }

    #[test]
    fn edges_of_types(rt: HostRuntime) {
        writes_narrow(&rt, b"65535", Some(65_535), Some(65_535));
        writes_narrow(&rt, b"65536", None, Some(65_536));
        writes_narrow(&rt, b"4294967295", None, Some(u32::MAX));
        writes_narrow(&rt, b"4294967296", None, None);
        writes_narrow(&rt, b"+1", None, None);
    }

    fn is_body(rt: &impl Abort, line: &[u8], body: &[u8]) {
        assert!(rt; uncommented(line) == body);
    }

    fn is_line(rt: &impl Abort, line: &[u8], text: bool) {
        assert_eq!(rt; is_text(line), text);
    }

    #[test]
    fn lines(rt: HostRuntime) {
        is_body(&rt, b"say \"a # b\" # c", b"say \"a # b\"");
        is_body(&rt, b" \t# all of it", b"");
        is_line(&rt, b"h\xC3\xA9\t\r", true);
        is_line(&rt, b"\xC3", false);
        is_line(&rt, b"\x1B[0m", false);
        is_line(&rt, b"\xC2\x80", false);
    }

    fn pairs(rt: &impl Abort, heap: Global, text: &[u8], bytes: &[u8]) -> Result<(), Fail> {
        match hex_bytes(heap, text) {
            Ok(read) => {
                assert!(rt; read.as_slice() == bytes);
                Ok(())
            }
            Err(_) => Err(Fail::new("refused")),
        }
    }

    // The part at fault, by a fault that is told of the whole text.
    fn no_pairs(rt: &impl Abort, heap: Global, text: &[u8], part: &[u8]) -> Result<(), Fail> {
        match hex_bytes(heap, text).map_err(|fault| fault.map(|misread| blame(misread, text))) {
            Err(Fault::Wrong(bad)) => {
                assert!(rt; bad.part(text) == part);
                Ok(())
            }
            _ => Err(Fail::new("not refused")),
        }
    }

    #[test]
    fn hexadecimal(rt: HostRuntime) -> Result<(), Fail> {
        let heap = rt.alloc();
        pairs(&rt, heap, b"", b"")?;
        pairs(&rt, heap, b" 0a0B \tff ", b"\x0A\x0B\xFF")?;
        no_pairs(&rt, heap, b"0A 0", b"0")?;
        no_pairs(&rt, heap, b"0A 0G 1", b"0G")?;
        no_pairs(&rt, heap, b"0 A", b"0")
    }
}
