//! The breaches of variables in arguments, each with its text.
ghost use Rattle.std.specs.Prelude.{◌≡◌, IfOk, string_bytes};
ghost use Rattle.gql_rules.specs.BreachTexts.{misplaced_text, undefined_text};
ghost use Rattle.gql_rules.specs.VariableUses.{misplaced_variable as misplaced};
ghost use Rattle.gql_rules.specs.VariableUses.{undefined_variable as undefined};

use gql_base::Made;
use gql_doc::Argument;
use gql_fields::{Breach, BreachKind, breach_of};
use std::alloc::Global;

/// A variable that an operation doesn't define.
pub fn undefined_variable(alloc: Global, argument: &Argument, name: &str) -> Made<Breach>
    ensures { IfOk result (λ made. made ≡ undefined argument.now name.now) }
{
    let text = undefined_message(alloc, name)?;
    breach_of(alloc, argument.name.pos, BreachKind::Variable, name, text)
}

/// A variable that doesn't fit where it stands.
pub fn misplaced_variable(alloc: Global, argument: &Argument, name: &str) -> Made<Breach>
    ensures { IfOk result (λ made. made ≡ misplaced argument.now name.now) }
{
    let text = misplaced_message(alloc, name, argument.name.node.as_str())?;
    breach_of(alloc, argument.name.pos, BreachKind::Variable, name, text)
}

#[tactic(auto, unfolding(crate::specs::BreachTexts::undefined_text))]
fn undefined_message(alloc: Global, name: &str) -> Made<String>
    ensures { IfOk result (λ text. string_bytes text ≡ undefined_text name.now) }
{
    format!(in alloc; "Variable \"${name}\" is not defined.")
}

#[tactic(auto, unfolding(crate::specs::BreachTexts::misplaced_text))]
fn misplaced_message(alloc: Global, name: &str, argument: &str) -> Made<String>
    ensures { IfOk result (λ text. string_bytes text ≡ misplaced_text name.now argument.now) }
{
    format!(in alloc; "Variable \"${name}\" does not fit argument \"{argument}\".")
}
