ghost use Rattle.std.specs.Prelude.{◌≡◌};

/// How the program ends.
#[derive(Clone, Copy, PartialEq, Eq)]
pub enum Status {
    /// The whole text was written.
    Done = 0,
    /// The whole text was written, and a response in it has errors.
    HasErrors = 1,
    /// The words are no listed form.
    Usage = 2,
    /// The input is no JSON, or gives no bench.
    Refused = 3,
    /// A read failed.
    ReadFault = 4,
    /// A write failed.
    WriteFault = 5,
    /// Memory was wanting.
    NoMemory = 6,
    /// The input is longer than its limit.
    TooLong = 7,
}

impl Status {
    ghost use Rattle.gql_cli.specs.Status.{code_of};

    /// The status as a process ends with it.
    pub fn code(self) -> u8
        ensures { result ≡ code_of self }
    {
        self as u8
    }
}
