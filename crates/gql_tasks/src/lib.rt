//! The engine of tasks: resolver calls that wait independently, taken up by turns.
#![tactic(auto)]

mod arena;
mod given;
mod keeping;
mod phase;
mod picking;
mod plan;
mod root;
mod rounds;
mod run;
mod scheduler;
mod settling;
mod shared;
mod turning;
mod waiting;

pub use arena::{Arena, State};
pub use given::Given;
pub use phase::run_phase;
pub use plan::Plan;
pub use root::answer_root;
pub use rounds::Rounds;
pub use run::Run;
pub use scheduler::finish;
pub use settling::{fresh_arena, make_tasks};
pub use waiting::Waiting;
