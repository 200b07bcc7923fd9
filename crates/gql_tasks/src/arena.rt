//! How far each task has come, and which of them wait.
use crate::given::Given;
use crate::waiting::Waiting;

/// How far a task has come: it was never begun, its resolver's future waits, or it has its answer.
#[derive(Drop)]
pub enum State<F> {
    Fresh,
    Waiting(F),
    Done,
}

/// The states of the tasks of a plan, and the numbers of those without an answer, in the order of
/// making.
#[derive(Drop)]
pub struct Arena<F> {
    pub states: Vec<State<F>>,
    pub waiting: Waiting,
}

/// What one turn gave: what the task is given, its first pending poll, or a later one.
#[derive(Drop)]
pub(crate) enum Turn<V> {
    Answered(Given<V>),
    Begun,
    Pending,
}
