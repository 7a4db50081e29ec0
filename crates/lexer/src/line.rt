ghost use Rattle.std.specs.Prelude.{◌≡◌, false, take, chars, Decides, IsUtf8};
ghost use Rattle.std.specs.List.{list_all};
ghost use Rattle.lexer.specs.Lines.{comment_at, trimmed_of, body_of, plain, plain_after, plain_from, Text};

use crate::chars::Class;

/// The most bytes that a line may have.
pub const LONGEST_LINE: usize = 16_384;

// The line up to its comment: a `#` outside double quotes begins one.
fn without_comment(line: &[u8]) -> &[u8]
    ensures { result.now ≡ take (comment_at false line.now) line.now }
{
    let mut quoted = false;
    for (n, c) in line.iter().enumerate() {
        match c {
            b'"' => quoted = !quoted,
            b'#' if !quoted => return &line[..n],
            _ => {}
        }
    }
    line
}

// The text without the blanks at its end.
fn trimmed(mut text: &[u8]) -> &[u8]
    ensures { result.now ≡ trimmed_of text.now }
{
    while let [rest @ .., last] = text
        && Class::Blank.holds(*last)
    {
        text = rest;
    }
    text
}

/// The line without its comment and without blanks at the end.
pub fn uncommented(line: &[u8]) -> &[u8]
    ensures { result.now ≡ body_of line.now }
{
    trimmed(without_comment(line))
}

// Whether `c`, behind `previous`, is no part of a control character, tab and carriage return apart.
fn plain_after(previous: u8, c: u8) -> bool
    ensures { result ≡ plain_after previous c }
{
    match c {
        b' '..=b'~' => true,
        128.. => previous != 194 || c > 159,
        _ => c == b'\t' || c == b'\r',
    }
}

// Whether none of the bytes belongs to a control character, tab and carriage return apart. A loop over bytes and
// no `all` over characters, because it ends at the first that does, before the rest is known to be UTF-8.
fn is_plain(line: &[u8]) -> bool
    ensures { result ≡ plain_from 0 line.now }
{
    let mut previous = 0;
    for c in line {
        if !plain_after(previous, *c) {
            return false;
        }
        previous = *c;
    }
    true
}

/// Whether the bytes are text: UTF-8, with no control character but tab and carriage return.
#[tactic(auto, using(crate::proofs::Characters::plain_told))]
pub fn is_text(line: &[u8]) -> bool
    ensures says { Decides result (Text line.now) }
    ensures characters { IsUtf8 line.now → result ≡ list_all plain (chars line.now) }
{
    is_plain(line) && std::str::from_utf8(line).is_ok()
}
