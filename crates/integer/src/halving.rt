ghost use Rattle.std.specs.Prelude.{◌≡◌, false, length, MatchOption};
ghost use Rattle.std.specs.Option.{option_map};
ghost use Rattle.integer.specs.Integer.{fill_of, is_width, kept_form, shortest, spare_half};
ghost use Rattle.integer.specs.Laws.{Kept};

use super::width::has_width;

// The byte that repeats the sign of a number whose first byte is `b`.
fn fill_of(b: u8) -> u8
    ensures { result ≡ fill_of b }
{
    if b < 128 { 0 } else { 255 }
}

// Whether the high half of `v` only repeats the sign of the low half.
#[tactic(auto, unfolding(crate::specs::Integer::spare_half))]
fn spare_half(v: &[u8]) -> bool
    ensures { result ≡ spare_half v.now }
{
    let (high, low) = v.split_at(v.len() / 2);
    !high.is_empty() && high.iter().all(|b| *b == fill_of(low[0]))
}

/// The same number without spare halves.
#[tactic(auto, using(crate::proofs::Halves::spare_some, crate::proofs::Halves::shortest_more, crate::proofs::Halves::shortest_done))]
pub fn shorten(v: &[u8]) -> &[u8]
    ensures { result.now ≡ shortest v.now }
{
    if spare_half(v) {
        let (_, low) = v.split_at(v.len() / 2);
        shorten(low)
    } else {
        v
    }
}

/// The same number in the smallest width; `None` where `v` has not the length of an integer.
#[tactic(auto, using(crate::proofs::Halves::shortest_kept))]
pub fn kept(v: &[u8]) -> Option<&[u8]>
    ensures form { option_map (λ x. x.now) result ≡ kept_form v.now }
    ensures law { MatchOption result (is_width (length v.now) ≡ false) (λ s. Kept v.now s.now) }
{
    has_width(v).then(|| shorten(v))
}
