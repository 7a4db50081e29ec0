ghost use Rattle.std.specs.Prelude.{◌≡◌, IfOk, IfSome, List, ℕ};
ghost use Rattle.std.specs.String.{string_bytes};
ghost use Rattle.session.specs.Printed.{Wrote, hex_text};

use std::alloc::{AllocError, Global};
use std::fmt::Display;

/// `write!` to bytes: behind what stands there, and with want of memory as the only error, which `io::Write`
/// would turn into one of its own.
pub trait Append {
    ghost contents: { Self → List ℕ };

    fn write_fmt<D: Display + Drop>(&mut self, shown: D) -> Result<(), AllocError>
        ensures { IfSome (D.output shown) (λ text. Wrote (contents self.old) result text (contents self.new)) };
}

impl Append for Vec<u8> {
    ghost contents = { λ v. v.items };

    fn write_fmt<D: Display + Drop>(&mut self, shown: D) -> Result<(), AllocError> {
        let text = shown.to_string(*self.allocator())?;
        self.extend_from_slice(text.as_bytes())
    }
}

/// Bytes as pairs of hexadecimal digits.
#[tactic(auto, using(crate::proofs::Digits::digits_told))]
pub fn hex_digits(heap: Global, bytes: &[u8]) -> Result<String, AllocError>
    ensures { IfOk result (λ text. string_bytes text ≡ hex_text bytes.now) }
{
    hex::encode_upper(heap, bytes)
}

pub fn put_hex(out: &mut Vec<u8>, bytes: &[u8]) -> Result<(), AllocError>
    ensures { Wrote out.old.items result (hex_text bytes.now) out.new.items }
{
    let digits = hex_digits(*out.allocator(), bytes)?;
    out.extend_from_slice(digits.as_bytes())
}
