ghost use Rattle.std.specs.Prelude.{◌≡◌, ◌≤◌, IfOk, Some};
ghost use Rattle.tlv.specs.Header.{kind_of, header_answer, read_length, read_header};
ghost use Rattle.tlv.specs.Wording.{kind_text};

use reason::Reason;
use std::fmt;

/// What an entry stands for, with its number in bits 7 and 6 of the type byte.
#[derive(Clone, Copy, Debug, PartialEq, Eq)]
pub enum Kind {
    ObjectInstance = 0,
    ResourceInstance = 1,
    MultipleResource = 2,
    Resource = 3,
}

impl fmt::Display for Kind {
    ghost output = { λ k. Some (kind_text k) };

    fn fmt<W: fmt::Write>(&self, f: &mut fmt::Formatter<W>) -> fmt::Result {
        f.write_str(match self {
            Kind::ObjectInstance => "Object Instance",
            Kind::ResourceInstance => "Resource Instance",
            Kind::MultipleResource => "multiple Resource",
            Kind::Resource => "Resource",
        })
    }
}

/// What names an entry in its container: the T and the I of its header.
#[derive(Clone, Copy, Debug, PartialEq, Eq)]
pub struct Tag {
    pub kind: Kind,
    pub id: u16,
}

/// A header as it was read: `size` bytes, behind which `len` bytes of value are due.
/// It has no `Tag` inside, because `h.kind` and `h.id` say plainly what is read one after the other.
#[derive(Clone, Copy, Debug, PartialEq, Eq)]
pub struct Header {
    pub kind: Kind,
    pub id: u16,
    pub size: usize,
    pub len: usize,
}

// The kind in the two highest bits of a type byte; no `From`, because the other bits are no part of it.
fn kind_of(t: u8) -> Kind
    ensures { result ≡ kind_of t }
{
    match t >> 6 {
        0 => Kind::ObjectInstance,
        1 => Kind::ResourceInstance,
        2 => Kind::MultipleResource,
        _ => Kind::Resource,
    }
}

/// The type byte and the length of the shortest header; a length that three bytes do not hold is refused.
/// A pair and no type of its own, because both are worked out together and taken apart where they arrive.
pub fn short_header(tag: Tag, len: usize) -> Result<(u8, usize), Reason>
    ensures says { result ≡ header_answer tag.kind tag.id len }
    ensures small { IfOk result (λ h. h.1 ≤ 6) }
{
    let (id_bits, id_size) = if tag.id < 256 { (0, 1) } else { (32, 2) };
    let (len_bits, len_size) = match len {
        ..8 => (len as u8, 0),
        ..256 => (8, 1),
        ..65_536 => (16, 2),
        ..16_777_216 => (24, 3),
        _ => return Err(Reason::DoesNotFit),
    };
    Ok((
        (tag.kind as u8) * 64 + id_bits + len_bits,
        1 + id_size + len_size,
    ))
}

// The length field behind type and identifier, which took `used` bytes.
fn read_length(t: u8, id: u16, used: usize, rest: &[u8]) -> Option<Header>
    requires { used ≤ 3 }
    ensures { result ≡ read_length t id used rest.now }
{
    let kind = kind_of(t);
    let (size, len) = match (t / 8 % 4, rest) {
        (0, _) => (used, usize::from(t % 8)),
        (1, &[a, ..]) => (used + 1, usize::from(a)),
        (2, &[a, b, ..]) => (used + 2, usize::from(u16::from_be_bytes([a, b]))),
        (3, &[a, b, c, ..]) => (used + 3, u32::from_be_bytes([0, a, b, c]) as usize),
        _ => return None,
    };
    Some(Header {
        kind,
        id,
        size,
        len,
    })
}

/// The header that `s` begins with, in any form; None where `s` ends within it.
/// Patterns on the bytes, because the first byte is the type and the next one or two are the identifier.
pub fn read_header(s: &[u8]) -> Option<Header>
    ensures { result ≡ read_header s.now }
{
    match *s {
        [t, id, ref rest @ ..] if t / 32 % 2 == 0 => read_length(t, u16::from(id), 2, rest),
        [t, hi, lo, ref rest @ ..] => read_length(t, u16::from_be_bytes([hi, lo]), 3, rest),
        _ => None,
    }
}
