ghost use Rattle.std.specs.Prelude.{ℕ, ◌+◌, length};
ghost use Rattle.lexer.specs.declared.fault.Expected.{Expected};
ghost use Rattle.payload_text.specs.Notation.{Reader, items_of, block_of, GivesPart};

use crate::piece::Piece;
use crate::value::end;
use lexer::{Class, Expected, Fault, Misread, skip_blanks, stopped_at, strip};
use std::alloc::Global;

/// What stands in a sequence. No closure, because the contract of a sequence names what its items mean.
pub trait Item {
    // What a text is read as.
    ghost meaning: { Reader };

    // heap and text do not make one struct, because whatever allocates takes heap first, and text is another
    // at each step.
    fn read(heap: Global, text: &[u8]) -> Result<Piece<'_>, Fault<Misread>>
        ensures { GivesPart result (meaning text.now) (length text.now) };
}

/// What stands in brackets.
pub trait Bracketed: Item {
    // The closing bracket.
    const CLOSE: u8;

    ghost CLOSE: { ℕ };

    // What is expected where that is missing.
    const EXPECTED: Expected;

    ghost EXPECTED: { Expected };
}

/// Items up to a closing bracket or the end.
#[tactic(auto, using(crate::proofs::Ahead::ahead_start))]
pub fn items<I: Item>(heap: Global, text: &[u8]) -> Result<Piece<'_>, Fault<Misread>>
    ensures { GivesPart result (items_of I.meaning text.now) (length text.now + 1) }
{
    let mut bytes = Vec::new(heap);
    let mut rest = skip_blanks(text);
    while rest.first().is_some_and(|c| !Class::Closing.holds(*c)) {
        let item = I::read(heap, rest)?;
        bytes.extend_from_slice(&item.bytes)?;
        rest = skip_blanks(item.rest);
    }
    Ok(Piece { bytes, rest })
}

/// Items in brackets, behind the opening one.
pub fn block<I: Bracketed>(heap: Global, text: &[u8]) -> Result<Piece<'_>, Fault<Misread>>
    ensures { GivesPart result (block_of I.meaning I.CLOSE I.EXPECTED text.now) (length text.now) }
{
    let Piece { bytes, rest } = items::<I>(heap, text)?;
    let rest = strip(I::CLOSE, rest).ok_or(stopped_at(I::EXPECTED, rest))?;
    end(rest)?;
    Ok(Piece { bytes, rest })
}
