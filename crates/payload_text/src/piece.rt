ghost use Rattle.std.specs.Prelude.{◌+◌, length};
ghost use Rattle.payload_text.specs.Notation.{entry_of, with_rest, GivesPart};

use crate::entry::encode;
use lexer::{Fault, Misread};
use std::alloc::Global;
use tlv::Tag;

/// Bytes that were read, and the text that is left behind them.
#[derive(Debug, PartialEq, Eq, Drop)]
pub struct Piece<'a> {
    pub bytes: Vec<u8>,
    pub rest: &'a [u8],
}

impl<'a> Piece<'a> {
    /// The entry whose value are these bytes, before the same text; one that is too long is told at `text`.
    pub fn into_entry(
        self,
        heap: Global,
        tag: Tag,
        text: &[u8],
    ) -> Result<Piece<'a>, Fault<Misread>>
        ensures { GivesPart result (with_rest (entry_of tag.kind tag.id text.now self.entry.bytes.items) self.entry.rest.now) (length self.entry.rest.now + 1) }
    {
        let Piece { bytes, rest } = self;
        let bytes = encode(heap, tag, text, &bytes)?;
        Ok(Piece { bytes, rest })
    }
}
