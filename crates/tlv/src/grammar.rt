ghost use Rattle.std.specs.Prelude.{◌≡◌};
ghost use Rattle.tlv.specs.Faults.{lifted, of_payload};
ghost use Rattle.tlv.specs.Grammar.{allows, within, fault, told, verdict};

use crate::fault::{CallFault, EntryFault, PayloadFault};
use crate::header::Kind;
use crate::limit::narrow;
use crate::walk::Entries;

/// What holds entries: a whole payload, or the value of an entry that is made of entries.
#[derive(Clone, Copy, Debug, PartialEq, Eq)]
pub enum Container {
    Payload,
    Instance,
    Multiple,
}

impl Container {
    fn allows(self, k: Kind) -> bool
        ensures { result ≡ allows self k }
    {
        match (self, k) {
            (Container::Payload, _) => true,
            (Container::Instance, Kind::Resource | Kind::MultipleResource) => true,
            (Container::Multiple, Kind::ResourceInstance) => true,
            _ => false,
        }
    }
}

impl Kind {
    /// The container that the value of an entry of this kind is, if it is one.
    pub fn contents(self) -> Option<Container>
        ensures { result ≡ within self }
    {
        match self {
            Kind::ObjectInstance => Some(Container::Instance),
            Kind::MultipleResource => Some(Container::Multiple),
            _ => None,
        }
    }
}

// Checks the entries from `start` to `end`, and by the same rule those inside each of them.
// Reading ends at `limit`: at `end` in here, and where it ended before once this is done, faults or none.
// Start and end come apart, and not as `Entries`, because the walk takes its end from the limit.
#[tactic(auto, using(crate::proofs::Faults::fault_filled))]
fn check(
    bytes: &[u8],
    limit: &mut usize,
    c: Container,
    start: usize,
    end: usize,
) -> Result<(), EntryFault>
    ensures says { result ≡ told (fault c bytes.now start end) }
    ensures restores { limit.new ≡ limit.old }
{
    let guard = narrow(limit, end);
    // Where the entries stop is kept beside the walk, because with `by_ref` on the walk no proof was found.
    let mut reached = start;
    for e in Entries::between(bytes, start, *guard.limit) {
        if !c.allows(e.kind) {
            return Err(EntryFault::at(e.place));
        }
        if let Some(inner) = e.kind.contents() {
            check(bytes, guard.limit, inner, e.from, e.to)?;
        }
        reached = e.to;
    }
    if reached != *guard.limit {
        return Err(EntryFault::at(reached));
    }
    Ok(())
}

/// Whether a payload is well formed, or else its first fault.
pub fn check_payload(bytes: &[u8]) -> Result<(), PayloadFault>
    ensures { result ≡ verdict bytes.now }
{
    if bytes.len() > 4096 {
        return Err(PayloadFault::TooLong);
    }
    let mut limit = bytes.len();
    check(bytes, &mut limit, Container::Payload, 0, bytes.len())?;
    Ok(())
}

/// What a call with this payload is told, as far as the payload's form goes.
pub fn accept_payload(bytes: &[u8]) -> Result<(), CallFault>
    ensures { result ≡ lifted of_payload (verdict bytes.now) }
{
    check_payload(bytes)?;
    Ok(())
}
