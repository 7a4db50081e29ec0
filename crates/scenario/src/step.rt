ghost use Rattle.std.specs.Prelude.{◌≡◌};
ghost use Rattle.scenario.specs.Steps.{kind_named, echo_of, header_of, integer_of, step_of, meant, all_bad, Reads};

use lexer::{
    BadLine, Expected, LONGEST_LINE, Misread, blame, decimal, is_text, narrow_number, next_word,
    skip_blanks, stopped_at, uncommented,
};
use tlv::{Kind, Tag};

/// What a line asks for.
#[derive(Clone, Copy, Debug, PartialEq, Eq)]
pub enum Step<'a> {
    Blank,
    Echo(bool),
    /// The text to print.
    Say(&'a [u8]),
    /// The payload's text.
    Check(&'a [u8]),
    Header { tag: Tag, len: u32 },
    Integer(i64),
}

#[tactic(auto, using(crate::proofs::Named::named))]
fn kind_named(word: &[u8]) -> Option<Kind>
    ensures { result ≡ kind_named word.now }
{
    match word {
        b"instance" => Some(Kind::ObjectInstance),
        b"element" => Some(Kind::ResourceInstance),
        b"multiple" => Some(Kind::MultipleResource),
        b"resource" => Some(Kind::Resource),
        _ => None,
    }
}

// On or off.
fn echo(text: &[u8]) -> Result<Step<'_>, Misread>
    ensures { meant result ≡ echo_of text.now }
{
    match text {
        b"on" => Ok(Step::Echo(true)),
        b"off" => Ok(Step::Echo(false)),
        _ => Err(stopped_at(Expected::OnOrOff, text)),
    }
}

// A kind, an identifier and a length.
#[tactic(auto, unfolding(crate::specs::Steps::header_of))]
fn header(text: &[u8]) -> Result<Step<'_>, Misread>
    ensures { meant result ≡ header_of text.now }
{
    let (word, rest) = next_word(text);
    let kind = kind_named(word).ok_or(stopped_at(Expected::Kind, text))?;
    let (word, last) = next_word(rest);
    let id = narrow_number(word).ok_or(stopped_at(Expected::Number, rest))?;
    let len = narrow_number(last).ok_or(stopped_at(Expected::Length, last))?;
    Ok(Step::Header {
        tag: Tag { kind, id },
        len,
    })
}

// A signed number.
#[tactic(auto, unfolding(crate::specs::Steps::integer_of))]
fn integer(text: &[u8]) -> Result<Step<'_>, Misread>
    ensures { meant result ≡ integer_of text.now }
{
    let number = decimal(text).ok_or(stopped_at(Expected::Decimal, text))?;
    Ok(Step::Integer(number))
}

// The step of a text that begins with no blank.
#[tactic(auto, using(crate::proofs::Named::named))]
fn step_of(text: &[u8]) -> Result<Step<'_>, Misread>
    ensures { meant result ≡ step_of text.now }
{
    let (word, rest) = next_word(text);
    // Ahead of the match, because in its last arm a proof would meet every way to miss all the words at once.
    let unknown = Err(stopped_at(Expected::Step, text));
    match word {
        b"" => Ok(Step::Blank),
        b"echo" => echo(rest),
        b"say" => Ok(Step::Say(rest)),
        b"check" => Ok(Step::Check(rest)),
        b"header" => header(rest),
        b"integer" => integer(rest),
        _ => unknown,
    }
}

// The whole line is at fault, and no part of it is fit to be shown.
fn all_bad(expected: Expected) -> BadLine
    ensures { result ≡ all_bad expected }
{
    BadLine {
        expected,
        from: 0,
        to: 0,
    }
}

/// What a line asks for. Any bytes may come: too many, or no text, is an answer here and no premise.
pub fn read_step(line: &[u8]) -> Result<Step<'_>, BadLine>
    ensures { Reads line.now result }
{
    if line.len() > LONGEST_LINE {
        return Err(all_bad(Expected::ShorterLine));
    }
    if !is_text(line) {
        return Err(all_bad(Expected::Text));
    }
    let body = uncommented(line);
    step_of(skip_blanks(body)).map_err(|misread| blame(misread, body))
}
