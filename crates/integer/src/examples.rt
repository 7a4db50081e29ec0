ghost use Rattle.std.specs.Prelude.{◌≡◌, [], ◌∷◌, pos, negsuc};
ghost use Rattle.integer.specs.Worked.{WorkedIntegers};

/// The numbers of the worked integers: a function and no constant, because what is worked out of them is the
/// promise of a call, which the tests make.
#[tactic(auto, using(crate::proofs::Worked::worked))]
pub fn worked_integers() -> [i64; 4]
    ensures numbers { result ≡ pos 127 ∷ pos 128 ∷ negsuc 127 ∷ pos 65535 ∷ [] }
    ensures worked { WorkedIntegers }
{
    [127, 128, -128, 65_535]
}
