//! Integers in two's complement of 1, 2, 4 or 8 bytes, high byte first, and the form in which they are kept:
//! the same number in the smallest of these widths.
#![tactic(auto)]

// Which lengths are widths.
mod width;
// The kept form of bytes: the high half is dropped while it only repeats the sign.
mod halving;
// The number that bytes stand for.
mod reading;
// The kept form of a number.
mod kept_integer;
// Worked integers.
mod examples;

pub use examples::worked_integers;
pub use halving::kept;
pub use kept_integer::KeptInteger;
pub use reading::to_number;

#[cfg(test)]
mod tests {
    use super::*;
    use std::process::Abort;
    use std::test::Fail;

    // `n` is kept as `bytes`, and `wide` is another form of it.
    fn agrees(rt: &impl Abort, n: i64, bytes: &[u8], wide: &[u8]) -> Result<(), Fail> {
        assert!(rt; KeptInteger::from(n).as_slice() == bytes);
        assert!(rt; kept(wide).ok_or("no width")? == bytes);
        assert_eq!(rt; to_number(bytes), Some(n));
        assert_eq!(rt; to_number(wide), Some(n));
        Ok(())
    }

    #[test]
    fn numbers(rt: HostRuntime) -> Result<(), Fail> {
        agrees(&rt, 0, &[0], &[0, 0, 0, 0])?;
        agrees(&rt, 127, &[0x7F], &[0, 0, 0, 0x7F])?;
        agrees(&rt, 128, &[0, 0x80], &[0, 0, 0, 0x80])?;
        agrees(&rt, -128, &[0x80], &[0xFF, 0x80])?;
        agrees(&rt, -129, &[0xFF, 0x7F], &[0xFF, 0xFF, 0xFF, 0x7F])?;
        agrees(
            &rt,
            65_535,
            &[0, 0, 0xFF, 0xFF],
            &[0, 0, 0, 0, 0, 0, 0xFF, 0xFF],
        )?;
        agrees(
            &rt,
            i64::MIN,
            &[0x80, 0, 0, 0, 0, 0, 0, 0],
            &[0x80, 0, 0, 0, 0, 0, 0, 0],
        )
    }

    #[test]
    fn worked(rt: HostRuntime) {
        for n in worked_integers() {
            assert_eq!(rt; to_number(KeptInteger::from(n).as_slice()), Some(n));
        }
    }

    fn refused(rt: &impl Abort, v: &[u8]) {
        assert!(rt; kept(v).is_none());
        assert_eq!(rt; to_number(v), None);
    }

    #[test]
    fn other_lengths(rt: HostRuntime) {
        refused(&rt, &[]);
        refused(&rt, &[0, 0, 1]);
        refused(&rt, &[0, 0, 0, 0, 1]);
        refused(&rt, &[0, 0, 0, 0, 0, 0, 0, 0, 1]);
    }
}
