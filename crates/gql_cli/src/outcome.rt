//! What a run has to write.
use crate::status::Status;
use gql_base::Text;

/// What a run has to write.
#[derive(Drop)]
pub enum Outcome {
    /// The usage line.
    Usage,
    /// The line of a failed read.
    ReadFault,
    /// The line of an input past its limit.
    TooLong,
    /// The line of an input that is no JSON.
    NotJson,
    /// The line that tells the first bad place of JSON that is no bench.
    BadShape(Text),
    /// The line of a bench, or of a request, of a form that isn't built.
    NotBuilt,
    /// The line that tells why the table of the bench's types is refused.
    BadSchema(Text),
    /// The text of a response without errors.
    Answered(Text),
    /// The text of a response with errors.
    HasErrors(Text),
    /// The line of a load.
    Loaded(Text),
}

impl Outcome {
    ghost use Rattle.std.specs.Prelude.{◌≡◌};
    ghost use Rattle.gql_cli.specs.Status.{code_of};
    ghost use Rattle.gql_cli.specs.Outcome.{due_status, due_text};

    /// The status once the whole text is written.
    pub fn status(&self) -> Status
        ensures { code_of result ≡ due_status self.now }
    {
        match self {
            Outcome::Usage => Status::Usage,
            Outcome::ReadFault => Status::ReadFault,
            Outcome::TooLong => Status::TooLong,
            Outcome::Answered(_) | Outcome::Loaded(_) => Status::Done,
            Outcome::HasErrors(_) => Status::HasErrors,
            Outcome::NotJson | Outcome::BadShape(_) | Outcome::NotBuilt | Outcome::BadSchema(_) =>
                Status::Refused,
        }
    }

    /// The text that is to be written.
    pub fn text(&self) -> &str
        ensures { result.now ≡ due_text self.now }
    {
        match self {
            Outcome::Usage => {
                "usage: gqlrun execute | record | batch | threads | stream | ws | load N\n"
            }
            Outcome::ReadFault => "input: read fault\n",
            Outcome::TooLong => "input: too long\n",
            Outcome::NotJson => "bench: not JSON\n",
            Outcome::NotBuilt => "bench: not built yet\n",
            Outcome::BadShape(text)
            | Outcome::BadSchema(text)
            | Outcome::Answered(text)
            | Outcome::HasErrors(text)
            | Outcome::Loaded(text) => text.as_str(),
        }
    }
}
