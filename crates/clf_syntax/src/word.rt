//! Words: which bytes they have, and how they are spelled.
ghost use Rattle.clf_syntax.specs.Word as spec;
ghost use Rattle.std.specs.Prelude.{◌≡◌};

/// Whether a byte is a digit.
pub fn is_digit(byte: u8) -> bool
    ensures { result ≡ spec.is_digit byte }
{
    byte >= b'0' && byte <= b'9'
}

/// Whether a byte is a capital letter.
pub fn is_capital(byte: u8) -> bool
    ensures { result ≡ spec.is_capital byte }
{
    byte >= b'A' && byte <= b'Z'
}

/// Whether a byte is a letter.
pub fn is_letter(byte: u8) -> bool
    ensures { result ≡ spec.is_letter byte }
{
    is_capital(byte) || (byte >= b'a' && byte <= b'z')
}

/// Whether a byte may stand in a name: a letter, a digit, or one of `_`, `'` and `/`.
pub fn is_name_byte(byte: u8) -> bool
    ensures { result ≡ spec.is_name_byte byte }
{
    is_letter(byte) || is_digit(byte) || byte == b'_' || byte == b'\'' || byte == b'/'
}

/// Whether a word may begin with a byte.
pub fn begins_word(byte: u8) -> bool
    ensures { result ≡ spec.begins_word byte }
{
    is_letter(byte) || is_digit(byte) || byte == b'_'
}

/// Whether a name byte stands in front.
pub fn name_byte_first(bytes: &[u8]) -> bool
    ensures { result ≡ spec.name_byte_first bytes.now }
{
    match bytes {
        [first, ..] => is_name_byte(*first),
        [] => false,
    }
}

/// Whether a word goes on with a byte, before the bytes `after`.
pub fn goes_on(byte: u8, after: &[u8]) -> bool
    ensures { result ≡ spec.goes_on byte after.now }
{
    is_name_byte(byte) || (byte == b'-' && name_byte_first(after))
}

/// Whether a word is spelled so.
pub fn is_spelled(word: &[u8], spelling: &[u8]) -> bool
    ensures { result ≡ spec.same_bytes word.now spelling.now }
{
    word == spelling
}

/// Whether all bytes are digits.
pub fn all_digits(bytes: &[u8]) -> bool
    ensures { result ≡ spec.all_digits bytes.now }
{
    for byte in bytes {
        if !is_digit(*byte) {
            return false;
        }
    }
    true
}

/// Whether a word is spelled as variables are printed: `x` and at least one digit.
pub fn is_variable_word(word: &[u8]) -> bool
    ensures { result ≡ spec.is_variable_word word.now }
{
    match word {
        [b'x', first, rest @ ..] => is_digit(*first) && all_digits(rest),
        _ => false,
    }
}
