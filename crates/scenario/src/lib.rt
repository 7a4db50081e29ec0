//! What the lines of a scenario ask for.
//! Texts are bytes and no &str, because what comes in may be any bytes.
#![tactic(auto)]

mod step;

pub use step::{Step, read_step};

#[cfg(test)]
mod tests {
    use super::*;
    use std::process::Abort;
    use tlv::{Kind, Tag};

    // A function without a contract takes any bytes: it is proved once, and a case needs no proof of its own.
    fn reads(rt: &impl Abort, line: &[u8], step: Step<'_>) {
        assert_eq!(rt; read_step(line).ok(), Some(step));
    }

    fn heads(rt: &impl Abort, line: &[u8], kind: Kind, id: u16, len: u32) {
        reads(
            rt,
            line,
            Step::Header {
                tag: Tag { kind, id },
                len,
            },
        );
    }

    fn fails(rt: &impl Abort, line: &[u8], from: usize, to: usize) {
        let part = read_step(line).err().map(|bad| (bad.from, bad.to));
        assert_eq!(rt; part, Some((from, to)));
    }

    #[test]
    fn steps(rt: HostRuntime) {
        reads(&rt, b" \r", Step::Blank);
        reads(&rt, b"echo on # loud", Step::Echo(true));
        reads(&rt, b"integer -129", Step::Integer(-129));
        reads(&rt, b"say  hi", Step::Say(b"hi"));
        reads(&rt, b"check", Step::Check(b""));
        heads(
            &rt,
            b"header resource 255 4294967295",
            Kind::Resource,
            255,
            4_294_967_295,
        );
        fails(&rt, b"open", 0, 4);
        fails(&rt, b"echo", 4, 4);
        fails(&rt, b" header element 70000 1", 16, 21);
    }
}
