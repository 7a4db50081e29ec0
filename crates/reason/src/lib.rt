//! Why a call is turned away, and the response codes.
#![tactic(auto)]

ghost use Rattle.std.specs.Prelude.{◌≡◌, Some};
ghost use Rattle.reason.specs.Reason.{number_of, code_of, code_text};

use std::fmt;

/// Why a call is turned away. Each reason has a number of its own, and goes with one response code.
#[derive(Clone, Copy, PartialEq, Eq, Debug)]
pub enum Reason {
    /// The payload is no sequence of whole, allowed entries, or is too long.
    NotWellFormed = 10,
    /// A value or a number does not fit where it is meant to go.
    DoesNotFit = 13,
    /// A buffer or the memory is too small.
    NoRoom = 17,
}

/// A response code, under the name that the protocol gives it.
#[derive(Clone, Copy, PartialEq, Eq, Debug)]
pub enum Code {
    BadRequest,
    InternalServerError,
}

impl From<Reason> for u8 {
    ghost from_gives = { λ r n. n ≡ number_of r };

    fn from(reason: Reason) -> u8 {
        reason as u8
    }
}

impl From<Reason> for Code {
    ghost from_gives = { λ r c. c ≡ code_of r };

    fn from(reason: Reason) -> Code {
        match reason {
            Reason::NotWellFormed | Reason::DoesNotFit => Code::BadRequest,
            Reason::NoRoom => Code::InternalServerError,
        }
    }
}

impl Code {
    /// The code as people write it: class, a point, and two digits of detail. It stands in the program, so
    /// that a device needs neither room nor a writer for it.
    pub fn text(self) -> &'static str
        ensures { result.now ≡ code_text self }
    {
        match self {
            Code::BadRequest => "4.00",
            Code::InternalServerError => "5.00",
        }
    }
}

impl fmt::Display for Code {
    ghost output = { λ c. Some (code_text c) };

    fn fmt<W: fmt::Write>(&self, f: &mut fmt::Formatter<W>) -> fmt::Result {
        f.write_str(self.text())
    }
}
