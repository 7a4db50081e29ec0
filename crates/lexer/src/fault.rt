ghost use Rattle.std.specs.Prelude.{◌≡◌, Some, alloc_error};
ghost use Rattle.lexer.specs.Faults.{stopped, blamed, part_of, ForWrong, Turned};
ghost use Rattle.lexer.specs.Wording.{words_of};
ghost use Rattle.lexer.specs.declared.fault.Fault.TheVariants.{Wrong, NoMemory};

use crate::chars::{Class, split};
use std::alloc::{AllocError, AllocFailed};
use std::fmt;

/// What should have stood in a line.
#[derive(Clone, Copy, PartialEq, Eq, Debug)]
pub enum Expected {
    Text,
    ShorterLine,
    Step,
    OnOrOff,
    Kind,
    Number,
    Length,
    Decimal,
    HexPair,
    Value,
    Colon,
    ColonOrBracket,
    OpeningBrace,
    ClosingBracket,
    ClosingBrace,
    ClosingQuote,
    Blank,
    End,
    ShorterValue,
}

impl Expected {
    /// In words for people.
    pub fn words(self) -> &'static str
        ensures { result.now ≡ words_of self }
    {
        match self {
            Expected::Text => "text expected, UTF-8 without control characters",
            Expected::ShorterLine => "shorter line expected, up to 16384 bytes",
            Expected::Step => "unknown step",
            Expected::OnOrOff => "on or off expected",
            Expected::Kind => "instance, element, multiple or resource expected",
            Expected::Number => "number expected, 0 to 65535",
            Expected::Length => "length expected, 0 to 4294967295",
            Expected::Decimal => "signed number of 64 bits expected",
            Expected::HexPair => "two hexadecimal digits expected",
            Expected::Value => "number, text in quotes, or x and hexadecimal digits expected",
            Expected::Colon => "colon expected",
            Expected::ColonOrBracket => "colon or opening bracket [ expected",
            Expected::OpeningBrace => "opening bracket { expected",
            Expected::ClosingBracket => "closing bracket ] expected",
            Expected::ClosingBrace => "closing bracket } expected",
            Expected::ClosingQuote => "closing quote expected",
            Expected::Blank => "blank expected",
            Expected::End => "end of the line expected",
            Expected::ShorterValue => "shorter value expected, up to 16777215 bytes",
        }
    }
}

impl fmt::Display for Expected {
    ghost output = { λ e. Some (words_of e) };

    fn fmt<W: fmt::Write>(&self, f: &mut fmt::Formatter<W>) -> fmt::Result {
        f.write_str(self.words())
    }
}

/// A line that cannot be read: what was expected, in place of the bytes from `from` up to `to`: two numbers,
/// because a `Range` is not `Copy`.
#[derive(Clone, Copy, PartialEq, Eq, Debug)]
pub struct BadLine {
    pub expected: Expected,
    pub from: usize,
    pub to: usize,
}

impl BadLine {
    /// The bytes at fault in their line; none in a shorter one.
    pub fn part(self, line: &[u8]) -> &[u8]
        ensures { result.now ≡ part_of self line.now }
    {
        line.get(self.from..self.to).unwrap_or(&[])
    }
}

/// Where reading stopped: what was expected, and how many bytes were left then.
#[derive(Clone, Copy, PartialEq, Eq, Debug)]
pub struct Misread {
    pub expected: Expected,
    pub left: usize,
}

/// Reading stopped where `text` is left.
pub fn stopped_at(expected: Expected, text: &[u8]) -> Misread
    ensures { result ≡ stopped expected text.now }
{
    Misread {
        expected,
        left: text.len(),
    }
}

/// The bytes of the whole text that are at fault: the rest of the word at which reading stopped.
pub fn blame(misread: Misread, whole: &[u8]) -> BadLine
    ensures { result ≡ blamed whole.now misread }
{
    let from = whole.len().saturating_sub(misread.left);
    let (word, _) = split(Class::Word, &whole[from..]);
    BadLine {
        expected: misread.expected,
        from,
        to: from + word.len(),
    }
}

/// Why a text gave no bytes: what is wrong with it, or want of memory.
#[derive(Clone, Copy, PartialEq, Eq, Debug)]
pub enum Fault<E> {
    Wrong(E),
    NoMemory(AllocError),
}

impl<E> Fault<E> {
    /// The same fault, where `turn` makes another of what is wrong.
    pub fn map<T, F: FnOnce(E) -> T>(self, turn: F) -> Fault<T>
        requires { ForWrong self (F.pre turn) }
        ensures { Turned (F.post turn) self result }
    {
        match self {
            Fault::Wrong(wrong) => Fault::Wrong(turn(wrong)),
            Fault::NoMemory(e) => Fault::NoMemory(e),
        }
    }
}

impl From<Misread> for Fault<Misread> {
    ghost from_gives = { λ e r. r ≡ Wrong e };

    fn from(e: Misread) -> Fault<Misread> {
        Fault::Wrong(e)
    }
}

impl<E> From<AllocError> for Fault<E> {
    ghost from_gives = { λ e r. r ≡ NoMemory e };

    fn from(e: AllocError) -> Fault<E> {
        Fault::NoMemory(e)
    }
}

impl<E, T: Drop> From<AllocFailed<T>> for Fault<E> {
    ghost from_gives = { λ _ r. r ≡ NoMemory alloc_error };

    fn from(failed: AllocFailed<T>) -> Fault<E> {
        Fault::NoMemory(AllocError::from(failed))
    }
}
