ghost use Rattle.std.specs.Prelude.{length};
ghost use Rattle.lexer.specs.declared.fault.Expected.TheVariants.{ClosingBracket, ClosingBrace};
ghost use Rattle.payload_text.specs.Notation.{element_of, resource_of, instance_of, payload_entry_of, GivesPart};

use crate::entry::numbered;
use crate::items::{Bracketed, Item, block};
use crate::piece::Piece;
use crate::value::value;
use lexer::{Expected, Fault, Misread, stopped_at, strip};
use std::alloc::Global;
use tlv::{Kind, Tag};

/// A Resource Instance: a number, a colon and a value.
pub struct Element;

impl Item for Element {
    ghost meaning = { element_of };

    fn read(heap: Global, text: &[u8]) -> Result<Piece<'_>, Fault<Misread>> {
        let (id, rest) = numbered(text)?;
        let inside = strip(b':', rest).ok_or(stopped_at(Expected::Colon, rest))?;
        let kind = Kind::ResourceInstance;
        value(heap, inside)?.into_entry(heap, Tag { kind, id }, text)
    }
}

impl Bracketed for Element {
    const CLOSE: u8 = b']';

    ghost CLOSE = { 93 };

    const EXPECTED: Expected = Expected::ClosingBracket;

    ghost EXPECTED = { ClosingBracket };
}

/// A Resource with a value, or a multiple Resource with its Resource Instances in square brackets.
pub struct Resource;

impl Item for Resource {
    ghost meaning = { resource_of };

    fn read(heap: Global, text: &[u8]) -> Result<Piece<'_>, Fault<Misread>> {
        let (id, rest) = numbered(text)?;
        if let Some(inside) = strip(b':', rest) {
            let kind = Kind::Resource;
            return value(heap, inside)?.into_entry(heap, Tag { kind, id }, text);
        }
        let inside = strip(b'[', rest).ok_or(stopped_at(Expected::ColonOrBracket, rest))?;
        let elements = block::<Element>(heap, inside)?;
        let kind = Kind::MultipleResource;
        elements.into_entry(heap, Tag { kind, id }, text)
    }
}

impl Bracketed for Resource {
    const CLOSE: u8 = b'}';

    ghost CLOSE = { 125 };

    const EXPECTED: Expected = Expected::ClosingBrace;

    ghost EXPECTED = { ClosingBrace };
}

// An Object Instance behind its @: a number, and Resources in curly brackets.
fn instance(heap: Global, text: &[u8]) -> Result<Piece<'_>, Fault<Misread>>
    ensures { GivesPart result (instance_of text.now) (length text.now) }
{
    let (id, rest) = numbered(text)?;
    let inside = strip(b'{', rest).ok_or(stopped_at(Expected::OpeningBrace, rest))?;
    let resources = block::<Resource>(heap, inside)?;
    let kind = Kind::ObjectInstance;
    resources.into_entry(heap, Tag { kind, id }, text)
}

/// What stands in a payload: an Object Instance or a Resource.
pub struct PayloadEntry;

impl Item for PayloadEntry {
    ghost meaning = { payload_entry_of };

    fn read(heap: Global, text: &[u8]) -> Result<Piece<'_>, Fault<Misread>> {
        match strip(b'@', text) {
            Some(rest) => instance(heap, rest),
            None => Resource::read(heap, text),
        }
    }
}
