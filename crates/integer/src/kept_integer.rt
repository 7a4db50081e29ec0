ghost use Rattle.std.specs.Prelude.{◌≡◌, true, false, length};
ghost use Rattle.integer.specs.Integer.{is_width, spare_half};
ghost use Rattle.integer.specs.Laws.{KeptNumber};

use super::halving::shorten;
use std::marker::Model;

/// A number in its kept form: callers see its eight bytes without the spare halves.
#[derive(Clone, Copy, PartialEq, Eq, Debug)]
pub struct KeptInteger {
    bytes: [u8; 8],
}

impl Model for KeptInteger {
    ghost use Rattle.std.specs.Prelude.{List, ℕ, ◌≡◌};
    ghost use Rattle.integer.specs.Integer.{eight_bytes, shortest, signed};

    ghost Value = { List ℕ };

    ghost view = { λ k. shortest k.bytes };

    ghost invariant = { λ k. eight_bytes (signed (shortest k.bytes)) ≡ k.bytes };

    ghost inverse = { λ xs. record { bytes = eight_bytes (signed xs) } };

    ghost inverse_ok = { λ _ same i. record { bytes = same i } };
}

impl From<i64> for KeptInteger {
    ghost from_gives = { KeptNumber };

    #[tactic(auto, using(crate::proofs::Numbers::bytes_again, crate::proofs::Numbers::kept_number))]
    fn from(n: i64) -> KeptInteger {
        KeptInteger {
            bytes: n.to_be_bytes(),
        }
    }
}

impl KeptInteger {
    /// The bytes of the number.
    #[tactic(auto, using(crate::proofs::Numbers::held_width, crate::proofs::Numbers::held_short))]
    pub fn as_slice(&self) -> &[u8]
        ensures bytes { result.now ≡ self.now }
        ensures width { is_width (length result.now) ≡ true }
        ensures short { spare_half result.now ≡ false }
    {
        shorten(&self.bytes)
    }
}
