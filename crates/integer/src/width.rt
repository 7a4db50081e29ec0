ghost use Rattle.std.specs.Prelude.{◌≡◌, length};
ghost use Rattle.integer.specs.Integer.{is_width};

/// Whether `v` has the length of an integer.
#[tactic(auto, unfolding(crate::specs::Integer::is_width))]
pub fn has_width(v: &[u8]) -> bool
    ensures { result ≡ is_width (length v.now) }
{
    matches!(v.len(), 1 | 2 | 4 | 8)
}
