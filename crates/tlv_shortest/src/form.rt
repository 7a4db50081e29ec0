ghost use Rattle.std.specs.Prelude.{◌≡◌, length};
ghost use Rattle.tlv_shortest.specs.Shortest.{shortest_answer, shortest_leaves};

use crate::level::Level;
use reason::Reason;
use tlv::{CallFault, check_payload};

/// The shortest form of a well-formed payload at the front of the buffer, zeros behind it; answers its
/// length. A refusal leaves zeros alone. The buffer is lent, because a device's memory is fixed.
#[tactic(auto, using(crate::proofs::Turns::filled))]
pub fn shortest_form(payload: &[u8], out: &mut [u8]) -> Result<usize, CallFault>
    ensures answers { result ≡ shortest_answer (length out.old) payload.now }
    ensures writes { out.new ≡ shortest_leaves result (length out.old) payload.now }
{
    out.fill(0);
    check_payload(payload)?;
    let whole = Level::of_payload(payload);
    if whole.form_len() > out.len() {
        return Err(Reason::NoRoom.into());
    }
    Ok(whole.write(out, 0))
}
