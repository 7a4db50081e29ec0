//! Payloads written as text: entries, values and pairs of hexadecimal digits.
//! Texts are bytes and no &str, because what comes in may be any bytes.
#![tactic(auto)]

// Bytes that were read, with the text left behind them.
mod piece;
// Values.
mod value;
// Entries in their shortest form.
mod entry;
// Items one behind another, and blocks of them between brackets.
mod items;
// The entries that stand in one another.
mod entries;
// The whole payload.
mod notation;

pub use notation::payload;

#[cfg(test)]
mod tests {
    use super::*;
    use lexer::Fault;
    use std::alloc::Global;
    use std::process::Abort;
    use tlv::Entries;

    // A function without a contract takes any bytes: it is proved once, and a case needs no proof of its own.
    fn gives(rt: &impl Abort, heap: Global, text: &[u8], bytes: &[u8]) {
        assert!(rt; payload(heap, text).is_ok_and(|v| v.as_slice() == bytes));
    }

    #[test]
    fn payloads(rt: HostRuntime) {
        let heap = rt.alloc();
        gives(&rt, heap, b"", b"");
        gives(&rt, heap, b"-", b"");
        gives(&rt, heap, b"0a0B  ff", b"\x0A\x0B\xFF");
        gives(&rt, heap, b"5:127", b"\xC1\x05\x7F");
        gives(&rt, heap, b"5:\"a]#\"", b"\xC3\x05a]#");
        gives(&rt, heap, b"5:x 300:x0aFF", b"\xC0\x05\xE2\x01\x2C\x0A\xFF");
        gives(
            &rt,
            heap,
            b"2[ 0:1 101:-129 ]",
            b"\x87\x02\x41\x00\x01\x42\x65\xFF\x7F",
        );
        gives(
            &rt,
            heap,
            b"@0{1:2 3[]} 4:5",
            b"\x05\x00\xC1\x01\x02\x80\x03\xC1\x04\x05",
        );
    }

    // As many entries as there are in the payload itself, those inside them apart.
    fn counts(rt: &impl Abort, heap: Global, text: &[u8], n: usize) {
        assert!(rt;
            payload(heap, text).is_ok_and(|v| Entries::of_payload(v.as_slice()).count() == n)
        );
    }

    #[test]
    fn numbers_of_entries(rt: HostRuntime) {
        let heap = rt.alloc();
        counts(&rt, heap, b"", 0);
        counts(&rt, heap, b"5:127 300:x0aFF", 2);
        counts(&rt, heap, b"@0{1:2 3[]} 4:5", 2);
    }

    fn refuses(rt: &impl Abort, heap: Global, text: &[u8], from: usize) {
        assert!(rt; matches!(payload(heap, text), Err(Fault::Wrong(bad)) if bad.from == from));
    }

    #[test]
    fn bad_payloads(rt: HostRuntime) {
        let heap = rt.alloc();
        refuses(&rt, heap, b"0A 0", 3);
        refuses(&rt, heap, b"0 A", 0);
        refuses(&rt, heap, b"2[0:1", 5);
        refuses(&rt, heap, b"@0{1:2]", 6);
        refuses(&rt, heap, b"5:\"ab", 5);
        refuses(&rt, heap, b"5:\"ab\"6:1", 6);
        refuses(&rt, heap, b"5:x0", 2);
        refuses(&rt, heap, b"5:", 2);
        refuses(&rt, heap, b"4:1 65536:1", 4);
    }
}
