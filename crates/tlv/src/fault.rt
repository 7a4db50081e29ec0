ghost use Rattle.std.specs.Prelude.{◌≡◌, Some};
ghost use Rattle.tlv.specs.Faults.{fault_at, of_entry, of_payload, of_reason};
ghost use Rattle.tlv.specs.Wording.{fault_words};

use reason::{Code, Reason};
use std::fmt;

/// What the entry reader found: why, and the offset of the entry's type byte.
#[derive(Clone, Copy, Debug, PartialEq, Eq)]
pub struct EntryFault {
    pub reason: Reason,
    pub place: usize,
}

impl EntryFault {
    // Of an entry that passes the end of its container, or is of a kind not allowed there.
    pub(crate) fn at(place: usize) -> EntryFault
        ensures { result ≡ fault_at place }
    {
        EntryFault {
            reason: Reason::NotWellFormed,
            place,
        }
    }
}

/// What is wrong with a payload.
#[derive(Clone, Copy, Debug, PartialEq, Eq)]
pub enum PayloadFault {
    TooLong,
    Entry(EntryFault),
}

/// What the caller is told.
/// No `EntryFault`, though its fields are the same, because it may be about no entry; `From` leads on to it.
#[derive(Clone, Copy, Debug, PartialEq, Eq)]
pub struct CallFault {
    pub reason: Reason,
    pub place: usize,
}

impl From<EntryFault> for PayloadFault {
    ghost from_gives = { λ e p. p ≡ of_entry e };

    fn from(e: EntryFault) -> PayloadFault {
        PayloadFault::Entry(e)
    }
}

impl From<PayloadFault> for CallFault {
    ghost from_gives = { λ p c. c ≡ of_payload p };

    fn from(p: PayloadFault) -> CallFault {
        match p {
            PayloadFault::TooLong => CallFault::from(Reason::NotWellFormed),
            PayloadFault::Entry(e) => CallFault {
                reason: e.reason,
                place: e.place,
            },
        }
    }
}

// A reason that is not about an entry has no place of its own, and is told with place 0.
impl From<Reason> for CallFault {
    ghost from_gives = { λ r c. c ≡ of_reason r };

    fn from(reason: Reason) -> CallFault {
        CallFault { reason, place: 0 }
    }
}

// The code, the number of the reason, and the place.
impl fmt::Display for CallFault {
    ghost output = { λ c. Some (fault_words c) };

    fn fmt<W: fmt::Write>(&self, f: &mut fmt::Formatter<W>) -> fmt::Result {
        let code = Code::from(self.reason);
        let number = u8::from(self.reason);
        let place = self.place;
        write!(f, "{code} {number} {place}")
    }
}
