use gql_base::{Number, Pos, Text};

/// A punctuator (GraphQL, October 2021, section 2.1.8).
#[derive(Clone, Copy, PartialEq, Eq, Debug)]
pub enum Punctuator {
    Bang,
    Dollar,
    Ampersand,
    OpenParen,
    CloseParen,
    Spread,
    Colon,
    Equals,
    At,
    OpenBracket,
    CloseBracket,
    OpenBrace,
    Pipe,
    CloseBrace,
}

/// What a token says. The last three end a list of tokens: no token begins at the place of
/// `Unexpected`, and at that of `Unsupported` a float begins, or a whole number that is none from
/// -2^63 to 2^64-1.
#[derive(Debug, Drop)]
pub enum Lexeme {
    Punctuator(Punctuator),
    Name(Text),
    Number(Number),
    String(Text),
    End,
    Unexpected,
    Unsupported,
}

/// A token and the place of its first character.
#[derive(Debug, Drop)]
pub struct Token {
    pub lexeme: Lexeme,
    pub pos: Pos,
}
