ghost use Rattle.std.specs.Prelude.{◌≡◌, true};
ghost use Rattle.tlv_laws.specs.Worked.{WorkedBytes};

/// Headers, payloads and integers, byte by byte.
/// A function, because only a contract can carry the worked bytes.
#[tactic(auto, using(crate::proofs::Examples::worked_bytes))]
pub fn worked_bytes_hold() -> bool
    ensures says { result ≡ true }
    ensures worked { WorkedBytes }
{
    true
}
