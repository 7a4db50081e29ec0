ghost use Rattle.std.specs.Prelude.{◌≡◌, ◌≤◌, length};
ghost use Rattle.lexer.specs.Numbers.{number_of, Narrowed};
ghost use Rattle.lexer.specs.Words.{skip_blanks, word_of, behind_word};

use crate::chars::{Class, split};
use crate::numbers::number;

pub fn skip_blanks(text: &[u8]) -> &[u8]
    ensures skips { result.now ≡ skip_blanks text.now }
    ensures within { length result.now ≤ length text.now }
{
    split(Class::Blank, text).1
}

/// The word at the front, and the text behind it and its blanks.
pub fn next_word(text: &[u8]) -> (&[u8], &[u8])
    ensures word { result.0.now ≡ word_of text.now }
    ensures rest { result.1.now ≡ behind_word text.now }
{
    let (word, rest) = split(Class::Word, text);
    (word, skip_blanks(rest))
}

/// The number that the whole text writes, if it is one of the type.
pub fn narrow_number<N: TryFrom<u64>>(text: &[u8]) -> Option<N>
where
    N::Error: Drop,
    ensures { Narrowed N.try_from_gives (number_of 18446744073709551615 text.now) result }
{
    N::try_from(number(text, u64::MAX)?).ok()
}
