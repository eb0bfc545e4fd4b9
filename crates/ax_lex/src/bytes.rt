//! What single bytes of a module's text are.

ghost use Rattle.std.specs.Prelude.{◌≡◌};
ghost use Rattle.ax_lex.specs.Bytes.{is_letter, is_digit, is_name_byte, is_meta_byte, is_literal_byte, is_text_byte, is_blank, is_mark, start_of};

/// What a byte starts.
#[derive(Clone, Copy)]
pub enum Start {
    Letter,
    Percent,
    At,
    Bang,
    Hash,
    Digit,
    Minus,
    Quote,
    Mark,
    Feed,
    Nothing,
}

pub fn is_letter(b: u8) -> bool
    ensures { result ≡ is_letter b }
{
    (b >= b'A' && b <= b'Z') || (b >= b'a' && b <= b'z') || b == b'_'
}

/// Whether a byte is a decimal digit, from `0` to `9`.
pub fn is_digit(b: u8) -> bool
    ensures { result ≡ is_digit b }
{
    b >= b'0' && b <= b'9'
}

pub fn is_name_byte(b: u8) -> bool
    ensures { result ≡ is_name_byte b }
{
    is_letter(b) || is_digit(b) || b == b'.' || b == b'-' || b == b'$'
}

pub fn is_meta_byte(b: u8) -> bool
    ensures { result ≡ is_meta_byte b }
{
    is_letter(b) || is_digit(b) || b == b'.'
}

pub fn is_literal_byte(b: u8) -> bool
    ensures { result ≡ is_literal_byte b }
{
    is_letter(b) || is_digit(b) || b == b'.' || b == b'+' || b == b'-'
}

pub fn is_text_byte(b: u8) -> bool
    ensures { result ≡ is_text_byte b }
{
    b >= b' ' && b <= b'~' && b != b'"'
}

/// Whether a byte is a blank of a text: a space, a tab or a carriage return.
pub fn is_blank(b: u8) -> bool
    ensures { result ≡ is_blank b }
{
    b == b' ' || b == b'\t' || b == b'\r'
}

fn is_mark(b: u8) -> bool
    ensures { result ≡ is_mark b }
{
    matches!(
        b,
        b'=' | b','
            | b'('
            | b')'
            | b'{'
            | b'}'
            | b'['
            | b']'
            | b'<'
            | b'>'
            | b':'
            | b'!'
            | b'*'
            | b'|'
    )
}

pub fn start_of(b: u8) -> Start
    ensures { result ≡ start_of b }
{
    if is_letter(b) {
        Start::Letter
    } else if is_digit(b) {
        Start::Digit
    } else if b == b'%' {
        Start::Percent
    } else if b == b'@' {
        Start::At
    } else if b == b'!' {
        Start::Bang
    } else if b == b'#' {
        Start::Hash
    } else if b == b'-' {
        Start::Minus
    } else if b == b'"' {
        Start::Quote
    } else if b == b'\n' {
        Start::Feed
    } else if is_mark(b) {
        Start::Mark
    } else {
        Start::Nothing
    }
}
