ghost use Rattle.std.specs.Prelude.{◌≡◌, ◌+◌, length, IfSome};
ghost use Rattle.std.specs.Option.{option_map};
ghost use Rattle.lexer.specs.Chars.{is_blank, is_closing, in_class, front_of, rest_of, behind};

/// A class of characters, by which a text is split: a closed choice and no closure, because each contract
/// names its class.
#[derive(Clone, Copy, PartialEq, Eq, Debug)]
pub enum Class {
    /// Space, tab and carriage return.
    Blank,
    /// 0 to 9.
    Digit,
    /// Whatever is no blank.
    Word,
    /// Whatever is neither a blank nor a closing bracket.
    Value,
    /// ] and }.
    Closing,
    /// Whatever is no double quote.
    Quoted,
    /// Whatever is no colon, [ or @.
    Unmarked,
}

fn is_blank(c: u8) -> bool
    ensures { result ≡ is_blank c }
{
    matches!(c, b' ' | b'\t' | b'\r')
}

fn is_closing(c: u8) -> bool
    ensures { result ≡ is_closing c }
{
    matches!(c, b']' | b'}')
}

impl Class {
    pub fn holds(self, c: u8) -> bool
        ensures { result ≡ in_class self c }
    {
        match self {
            Class::Blank => is_blank(c),
            Class::Digit => matches!(c, b'0'..=b'9'),
            Class::Word => !is_blank(c),
            Class::Value => !is_blank(c) && !is_closing(c),
            Class::Closing => is_closing(c),
            Class::Quoted => c != b'"',
            Class::Unmarked => !matches!(c, b':' | b'[' | b'@'),
        }
    }
}

/// The longest front of characters of the class, and what stands behind it.
pub fn split(class: Class, text: &[u8]) -> (&[u8], &[u8])
    ensures front { result.0.now ≡ front_of class text.now }
    ensures rest { result.1.now ≡ rest_of class text.now }
    ensures whole { length result.0.now + length result.1.now ≡ length text.now }
{
    let n = text.iter().take_while(|c| class.holds(**c)).count();
    text.split_at(n)
}

/// The text behind the character `c`, if it begins with that.
pub fn strip(c: u8, text: &[u8]) -> Option<&[u8]>
    ensures behind { option_map (λ x. x.now) result ≡ behind c text.now }
    ensures shorter { IfSome result (λ t. length t.now + 1 ≡ length text.now) }
{
    text.strip_prefix(&[c])
}
