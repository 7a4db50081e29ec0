ghost use Rattle.std.specs.Prelude.{◌≡◌};
ghost use Rattle.std.specs.Option.{option_map};
ghost use Rattle.integer.specs.Integer.{kept_form, kept_of, number_of};

/// The number that `v` stands for; `None` where `v` has not the length of an integer.
#[tactic(auto, using(crate::proofs::Numbers::one, crate::proofs::Numbers::two, crate::proofs::Numbers::four, crate::proofs::Numbers::eight, crate::proofs::Numbers::numbered, crate::proofs::Numbers::written_again), unfolding(crate::specs::Integer::is_width))]
pub fn to_number(v: &[u8]) -> Option<i64>
    ensures number { result ≡ number_of v.now }
    ensures written { option_map kept_of result ≡ kept_form v.now }
{
    match *v {
        [a] => Some(i64::from(a.cast_signed())),
        [a, b] => Some(i64::from(i16::from_be_bytes([a, b]))),
        [a, b, c, d] => Some(i64::from(i32::from_be_bytes([a, b, c, d]))),
        [a, b, c, d, e, f, g, h] => Some(i64::from_be_bytes([a, b, c, d, e, f, g, h])),
        _ => None,
    }
}
