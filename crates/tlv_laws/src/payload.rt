ghost use Rattle.std.specs.Prelude.{◌≡◌, ◌↔◌, length, IfOk, IsNone, OnOk};
ghost use Rattle.tlv.specs.Faults.{lifted, of_payload};
ghost use Rattle.tlv.specs.Grammar.{verdict};
ghost use Rattle.tlv_shortest.specs.Shortest.{Shortest, shortest_answer, shortest_leaves};
ghost use Rattle.tlv_laws.specs.Fills.{Accepted};
ghost use Rattle.tlv_laws.specs.Forms.{ReadBack, WrittenSame, length_of};
ghost use Rattle.tlv_laws.specs.Headers.{ShortestHeader};

use tlv::{CallFault, accept_payload};
use tlv_shortest::shortest_form;

/// Whether a payload is well formed; accepted are those of the grammar, and no others.
#[tactic(auto, using(crate::proofs::Filled::accepts_grammar))]
pub fn well_formed(payload: &[u8]) -> Result<(), CallFault>
    ensures says { result ≡ lifted of_payload (verdict payload.now) }
    ensures grammar { Accepted payload.now }
{
    accept_payload(payload)
}

/// A payload's shortest form in the buffer, and zeros behind it; answers its length, or None where the
/// payload has that form already. It reads back as the same entries, and is the payload byte for byte where
/// every header of that is as short as it can be.
#[tactic(auto, using(crate::proofs::Answered::rewriting))]
pub fn rewrite(payload: &[u8], out: &mut [u8]) -> Result<Option<usize>, CallFault>
    ensures answers { length_of payload.now result ≡ shortest_answer (length out.old) payload.now }
    ensures writes { out.new ≡ shortest_leaves (length_of payload.now result) (length out.old) payload.now }
    ensures decides { IfOk result (λ n. IsNone n ↔ Shortest payload.now) }
    ensures back { OnOk result (ReadBack payload.now) }
    ensures same { OnOk result (WrittenSame payload.now) }
    ensures least { ShortestHeader }
{
    let len = shortest_form(payload, out)?;
    Ok((out[..len] != payload[..]).then_some(len))
}
