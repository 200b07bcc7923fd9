//! The error of a refusal.
ghost use Rattle.std.specs.Prelude.{◌≡◌, IfOk};
ghost use Rattle.gql_rules.specs.Refusal.{refusal};

use gql_base::{Made, Pos, ServerError};
use std::alloc::Global;

/// An error with this message, and with one place or none.
#[tactic(auto, using(crate::proofs::RefusalLemmas::refusal_of))]
pub fn refuse(alloc: Global, message: &str, place: Option<Pos>) -> Made<ServerError>
    ensures { IfOk result (λ error. error ≡ refusal message.now place) }
{
    ServerError::new(alloc, message, place)
}
