ghost use Rattle.std.specs.Prelude.{◌≡◌};
ghost use Rattle.gql_ws.specs.MessageFault.{fault_text};

/// Why a message of a client is none that a session knows. The first that holds is told.
#[derive(Clone, Copy, PartialEq, Eq, Debug)]
pub enum MessageFault {
    /// It is no JSON text, or isn't UTF-8.
    NotJson,
    /// It holds a number that isn't a whole one from -2^63 to 2^64-1.
    Number,
    /// It is no object with a text as its type, or lacks what a message of its type has.
    Shape,
    /// Its type isn't known.
    Unknown,
}

impl MessageFault {
    /// The fault in words.
    pub fn text(&self) -> &'static str
        ensures { result.now ≡ fault_text self.now }
    {
        match self {
            MessageFault::NotJson => "Invalid message: not JSON",
            MessageFault::Number => "Invalid message: number",
            MessageFault::Shape => "Invalid message: bad shape",
            MessageFault::Unknown => "Invalid message: unknown type",
        }
    }
}
