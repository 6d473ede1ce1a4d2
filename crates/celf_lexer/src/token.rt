//! Tokens and their faults.

/// What a token is. The signs stand in the order of the table of signs in docs/language.md.
#[derive(Clone, Copy, Debug, PartialEq, Eq)]
pub enum TokenKind {
    KwType,
    KwPi,
    KwExists,
    KwLet,
    KwIn,
    Hole,
    Number,
    Name { capital: bool },
    ConstName,
    Proj1,
    Proj2,
    Directive,
    Arrow,
    BackArrow,
    Lolli,
    BackLolli,
    Affine,
    TopSign,
    UnitSign,
    Less,
    Greater,
    LeftBrace,
    RightBrace,
    LeftParen,
    RightParen,
    LeftBracket,
    RightBracket,
    Comma,
    Stop,
    Colon,
    Equals,
    Backslash,
    Bang,
    AtSign,
    Star,
    Amp,
    End,
}

/// A token and the bytes that it covers, from `start` up to and without `end`.
#[derive(Clone, Copy, Debug, PartialEq, Eq)]
pub struct Token {
    pub kind: TokenKind,
    pub start: u32,
    pub end: u32,
}

/// Why no token begins at a byte.
#[derive(Clone, Copy, Debug, PartialEq, Eq)]
pub enum LexFault {
    /// None of the tokens begins at this byte.
    BadByte(u32),
    /// The word of the token that begins at this byte has more than 255 bytes.
    LongName(u32),
}
