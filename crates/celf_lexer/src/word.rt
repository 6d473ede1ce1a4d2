//! Words: names, keywords, numbers and the hole.

ghost use Rattle.celf_lexer.specs.Sign as spec;
ghost use Rattle.clf_syntax.specs.Word as words;
ghost use Rattle.std.specs.Prelude.{◌<◌, ◌≡◌, ◌≤◌, IsTrue, length};

use crate::token::TokenKind;

fn is_digit(byte: u8) -> bool
    ensures { result ≡ words.is_digit byte }
{
    byte >= b'0' && byte <= b'9'
}

fn is_capital(byte: u8) -> bool
    ensures { result ≡ words.is_capital byte }
{
    byte >= b'A' && byte <= b'Z'
}

fn is_letter(byte: u8) -> bool
    ensures { result ≡ words.is_letter byte }
{
    is_capital(byte) || (byte >= b'a' && byte <= b'z')
}

fn is_name_byte(byte: u8) -> bool
    ensures { result ≡ words.is_name_byte byte }
{
    is_letter(byte) || is_digit(byte) || byte == b'_' || byte == b'\'' || byte == b'/'
}

/// Whether a word may begin with this byte.
pub(crate) fn begins_word(byte: u8) -> bool
    ensures { result ≡ words.begins_word byte }
{
    is_letter(byte) || is_digit(byte) || byte == b'_'
}

/// Whether a name byte stands in front.
pub(crate) fn name_byte_first(bytes: &[u8]) -> bool
    ensures { result ≡ words.name_byte_first bytes.now }
{
    match bytes {
        [first, ..] => is_name_byte(*first),
        [] => false,
    }
}

/// Whether a word goes on with this byte, before the bytes `after`.
fn goes_on(byte: u8, after: &[u8]) -> bool
    ensures { result ≡ words.goes_on byte after.now }
{
    is_name_byte(byte) || (byte == b'-' && name_byte_first(after))
}

/// How many bytes the word has that goes on here.
fn rest_length(bytes: &[u8]) -> usize
    ensures value { result ≡ spec.rest_length bytes.now }
    ensures within { result ≤ length bytes.now }
{
    for (i, byte) in bytes.iter().enumerate() {
        if !goes_on(*byte, &bytes[i + 1..]) {
            return i;
        }
    }
    bytes.len()
}

/// How many bytes the word has that begins here, 0 where none does.
fn word_length(bytes: &[u8]) -> usize
    ensures value { result ≡ spec.word_length bytes.now }
    ensures within { result ≤ length bytes.now }
{
    match bytes {
        [first, rest @ ..] if begins_word(*first) => 1 + rest_length(rest),
        _ => 0,
    }
}

/// The word that begins here, empty where none does.
#[tactic(auto, using(crate::proofs::Words::word_here_is_word))]
pub(crate) fn first_word(bytes: &[u8]) -> &[u8]
    ensures value { result.now ≡ spec.word_here bytes.now }
    ensures size { length result.now ≡ spec.word_length bytes.now }
    ensures within { spec.word_length bytes.now ≤ length bytes.now }
    ensures word { 0 < length result.now → IsTrue (words.is_word result.now) }
{
    &bytes[..word_length(bytes)]
}

/// Whether the word is spelled so.
pub(crate) fn is_spelled(word: &[u8], spelling: &[u8]) -> bool
    ensures { result ≡ words.same_bytes word.now spelling.now }
{
    word == spelling
}

/// Whether all bytes of the word are digits.
fn all_digits(word: &[u8]) -> bool
    ensures { result ≡ words.all_digits word.now }
{
    for byte in word {
        if !is_digit(*byte) {
            return false;
        }
    }
    true
}

/// What a word of at least one byte is.
pub(crate) fn word_kind(word: &[u8]) -> TokenKind
    requires { 0 < length word.now }
    ensures { result ≡ spec.word_kind word.now }
{
    if is_spelled(word, b"type") {
        TokenKind::KwType
    } else if is_spelled(word, b"Pi") {
        TokenKind::KwPi
    } else if is_spelled(word, b"Exists") {
        TokenKind::KwExists
    } else if is_spelled(word, b"let") {
        TokenKind::KwLet
    } else if is_spelled(word, b"in") {
        TokenKind::KwIn
    } else if is_spelled(word, b"_") {
        TokenKind::Hole
    } else if all_digits(word) {
        TokenKind::Number
    } else {
        TokenKind::Name {
            capital: is_capital(word[0]),
        }
    }
}

/// Whether a word, or no byte at all, is a name.
#[tactic(auto, using(crate::proofs::Words::name_has_kind))]
pub(crate) fn is_name(word: &[u8]) -> bool
    requires { 0 < length word.now → IsTrue (words.is_word word.now) }
    ensures { result ≡ words.is_name word.now }
{
    !word.is_empty() && matches!(word_kind(word), TokenKind::Name { .. })
}
