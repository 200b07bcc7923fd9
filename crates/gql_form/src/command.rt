/// What the program does with a bench.
#[derive(Clone, Copy, PartialEq, Eq)]
pub enum Command {
    Execute,
    Record,
    Batch,
    Threads,
    Stream,
    Ws,
}
