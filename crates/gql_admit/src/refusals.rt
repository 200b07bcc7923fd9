//! The errors of refused requests.
ghost use Rattle.std.specs.Prelude.{◌≡◌, IfOk, string_bytes, None, Some};
ghost use Rattle.std.specs.Option.{option_copied};
ghost use Rattle.gql_admit.specs.Refusal.{depth_error as error_of_depth};
ghost use Rattle.gql_admit.specs.Refusal.{directives_error as error_of_directives};
ghost use Rattle.gql_admit.specs.Refusal.{depth_text, directives_text, no_operation_error};
ghost use Rattle.gql_admit.specs.Refusal.{unknown_operation_text};

use gql_base::{Made, Pos, ServerError};
use gql_rules::refuse;
use std::alloc::Global;

/// The error of a set that lies too deep.
pub fn depth_error(alloc: Global, limit: usize, place: Pos) -> Made<ServerError>
    ensures { IfOk result (λ error. error ≡ error_of_depth limit place) }
{
    let message = depth_message(alloc, limit)?;
    refuse(alloc, message.as_str(), Some(place))
}

/// The error of a field with too many directives.
pub fn directives_error(alloc: Global, limit: usize, name: &str, place: Pos) -> Made<ServerError>
    ensures { IfOk result (λ error. error ≡ error_of_directives limit name.now place) }
{
    let message = directives_message(alloc, limit, name)?;
    refuse(alloc, message.as_str(), Some(place))
}

/// The error of a request from which no operation can be chosen, by the name that it asks for.
pub fn choice_error(alloc: Global, name: Option<&str>) -> Made<ServerError>
    ensures { IfOk result (λ error. error ≡ no_operation_error (option_copied name.entry)) }
{
    match name {
        None => refuse(alloc, "Operation name required in request.", None),
        Some(name) => {
            let message = unknown_operation_message(alloc, name)?;
            refuse(alloc, message.as_str(), None)
        }
    }
}

#[tactic(auto, unfolding(crate::specs::Refusal::depth_text))]
fn depth_message(alloc: Global, limit: usize) -> Made<String>
    ensures { IfOk result (λ text. string_bytes text ≡ depth_text limit) }
{
    format!(in alloc; "The recursion depth of the query cannot be greater than `{limit}`")
}

#[tactic(auto, using(std::proofs::lemmas::List::append_assoc), unfolding(crate::specs::Refusal::directives_text))]
fn directives_message(alloc: Global, limit: usize, name: &str) -> Made<String>
    ensures { IfOk result (λ text. string_bytes text ≡ directives_text name.now limit) }
{
    format!(in alloc;
        "The number of directives on the field `{name}` cannot be greater than `{limit}`"
    )
}

#[tactic(auto, unfolding(crate::specs::Refusal::unknown_operation_text))]
fn unknown_operation_message(alloc: Global, name: &str) -> Made<String>
    ensures { IfOk result (λ text. string_bytes text ≡ unknown_operation_text name.now) }
{
    format!(in alloc; "Unknown operation named \"{name}\"")
}
