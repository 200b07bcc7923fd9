//! The breaches of definitions of variables, each with its text.
ghost use Rattle.std.specs.Prelude.{◌≡◌, IfOk, string_bytes};
ghost use Rattle.gql_fields.specs.Breach.{breach};
ghost use Rattle.gql_rules.specs.BreachTexts.{default_text, no_input_text, no_value_text};
ghost use Rattle.gql_rules.specs.BreachTexts.{twice_text};
ghost use Rattle.gql_rules.specs.VariableDefinitions.{fault_text};

use crate::definition_fault::DefinitionFault;
use gql_base::{Made, Pos};
use gql_fields::{Breach, BreachKind, breach_of};
use std::alloc::Global;

/// A definition with this fault.
pub fn wrong_definition(alloc: Global, pos: Pos, name: &str, fault: DefinitionFault) -> Made<Breach>
    ensures { IfOk result (λ made. made
        ≡ breach pos BreachKind.Definition name.now (fault_text fault name.now)) }
{
    let text = fault_message(alloc, fault, name)?;
    breach_of(alloc, pos, BreachKind::Definition, name, text)
}

fn fault_message(alloc: Global, fault: DefinitionFault, name: &str) -> Made<String>
    ensures { IfOk result (λ text. string_bytes text ≡ fault_text fault name.now) }
{
    match fault {
        DefinitionFault::Twice => twice_message(alloc, name),
        DefinitionFault::NoInput => no_input_message(alloc, name),
        DefinitionFault::Default => default_message(alloc, name),
        DefinitionFault::NoValue => no_value_message(alloc, name),
    }
}

#[tactic(auto, unfolding(crate::specs::BreachTexts::twice_text))]
fn twice_message(alloc: Global, name: &str) -> Made<String>
    ensures { IfOk result (λ text. string_bytes text ≡ twice_text name.now) }
{
    format!(in alloc; "Variable \"${name}\" is defined twice.")
}

#[tactic(auto, unfolding(crate::specs::BreachTexts::no_input_text))]
fn no_input_message(alloc: Global, name: &str) -> Made<String>
    ensures { IfOk result (λ text. string_bytes text ≡ no_input_text name.now) }
{
    format!(in alloc; "Variable \"${name}\" has no input type.")
}

#[tactic(auto, unfolding(crate::specs::BreachTexts::default_text))]
fn default_message(alloc: Global, name: &str) -> Made<String>
    ensures { IfOk result (λ text. string_bytes text ≡ default_text name.now) }
{
    format!(in alloc; "Default of variable \"${name}\" does not fit.")
}

#[tactic(auto, unfolding(crate::specs::BreachTexts::no_value_text))]
fn no_value_message(alloc: Global, name: &str) -> Made<String>
    ensures { IfOk result (λ text. string_bytes text ≡ no_value_text name.now) }
{
    format!(in alloc; "Variable \"${name}\" has no fitting value.")
}
