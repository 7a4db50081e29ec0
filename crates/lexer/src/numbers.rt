ghost use Rattle.std.specs.Prelude.{◌≡◌, ◌≤◌, ◌&&◌, IfSome, slice_index};
ghost use Rattle.lexer.specs.Chars.{is_digit};
ghost use Rattle.lexer.specs.Numbers.{at_most, decimal_of, digits_on, leads, number_of};

use crate::chars::{Class, strip};

// The number of a text of decimal digits, at most `most`. A loop and no `parse`, because it ends at the first
// byte that no number has, and as soon as the number is too large: a text that is refused is not read whole.
fn digits(text: &[u8], most: u64) -> Option<u64>
    ensures says { result ≡ at_most most (digits_on 0 text.now) }
    ensures small { IfSome result (λ n. n ≤ most) }
{
    let mut n: u64 = 0;
    for c in text {
        if !Class::Digit.holds(*c) {
            return None;
        }
        let next = n as u128 * 10 + (*c - b'0') as u128;
        if next > most as u128 {
            return None;
        }
        n = next as u64;
    }
    Some(n)
}

// Whether a number may begin so: with a digit, and 0 stands alone.
#[tactic(auto, unfolding(crate::specs::Numbers::leads))]
fn leads_well(text: &[u8]) -> bool
    ensures { result ≡ (leads text.now && is_digit (slice_index text.now 0)) }
{
    matches!(text, [b'0'] | [b'1'..=b'9', ..])
}

/// The number that the whole text writes in decimal, without leading zeros, and at most `most`.
#[tactic(auto, using(crate::proofs::Reading::badly_led))]
pub fn number(text: &[u8], most: u64) -> Option<u64>
    ensures says { result ≡ number_of most text.now }
    ensures small { IfSome result (λ n. n ≤ most) }
{
    if leads_well(text) {
        digits(text, most)
    } else {
        None
    }
}

/// The signed number of 64 bits that the whole text writes.
pub fn decimal(text: &[u8]) -> Option<i64>
    ensures { result ≡ decimal_of text.now }
{
    match strip(b'-', text) {
        Some(rest) => 0i64.checked_sub_unsigned(number(rest, 1 << 63)?),
        None => 0i64.checked_add_unsigned(number(text, (1 << 63) - 1)?),
    }
}
