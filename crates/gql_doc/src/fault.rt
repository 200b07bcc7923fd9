ghost use Rattle.std.specs.Prelude.{◌≡◌};
ghost use Rattle.gql_doc.specs.Faults.{message_of};

use gql_base::Pos;

/// What is wrong with a text that is no document.
#[derive(Clone, Copy, PartialEq, Eq, Debug)]
pub enum ParseKind {
    /// No token begins at the place.
    Character,
    /// No document begins with the tokens up to the one at the place.
    Token,
    /// A float, or a whole number that is none from -2^63 to 2^64-1.
    Number,
    /// The 65th nested set, value or list type opens at the place.
    Nesting,
    /// An anonymous operation beside another one, or no operation at all.
    Operations,
    /// The second definition of a name, or the second such name in an object value.
    Doubled,
}

/// The first fault of a text, and its place.
#[derive(Clone, Copy, PartialEq, Eq, Debug)]
pub struct ParseFault {
    pub kind: ParseKind,
    pub pos: Pos,
}

impl ParseFault {
    /// The fault in words.
    pub fn message(&self) -> &'static str
        ensures { result.now ≡ message_of self.now.kind }
    {
        match self.kind {
            ParseKind::Character => "Syntax error: unexpected character",
            ParseKind::Token => "Syntax error: unexpected token",
            ParseKind::Number => "Syntax error: number not supported",
            ParseKind::Nesting => "Syntax error: nested too deep",
            ParseKind::Operations => "Syntax error: wrong operations",
            ParseKind::Doubled => "Syntax error: doubled name",
        }
    }
}
