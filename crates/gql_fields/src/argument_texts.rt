//! The breaches of rules on directives and arguments, each with its text.
ghost use Rattle.std.specs.Prelude.{◌≡◌, IfOk, string_bytes};
ghost use Rattle.gql_fields.specs.ArgumentViews.{owner_behind};
ghost use Rattle.gql_fields.specs.Arguments.{missing_argument_text, unknown_argument_text};
ghost use Rattle.gql_fields.specs.Breach.{breach};
ghost use Rattle.gql_fields.specs.BreachTexts.{doubled_text, expected_text, invalid_text};
ghost use Rattle.gql_fields.specs.BreachTexts.{missing_of_directive_text, missing_of_field_text};
ghost use Rattle.gql_fields.specs.BreachTexts.{unknown_directive_text, unknown_of_directive_text};
ghost use Rattle.gql_fields.specs.BreachTexts.{unknown_of_field_text};

use crate::arguments::Owner;
use crate::breach::{Breach, BreachKind};
use crate::breach_texts::breach_of;
use gql_base::{Made, Pos, Text};
use std::alloc::Global;

/// A directive that isn't known where it stands.
pub fn unknown_directive(alloc: Global, pos: Pos, name: &str) -> Made<Breach>
    ensures { IfOk result (λ made. made
        ≡ breach pos BreachKind.Directive name.now (unknown_directive_text name.now)) }
{
    let text = directive_message(alloc, name)?;
    breach_of(alloc, pos, BreachKind::Directive, name, text)
}

/// An argument that isn't declared.
pub fn unknown_argument(alloc: Global, owner: &Owner<'_>, pos: Pos, name: &str) -> Made<Breach>
    ensures { IfOk result (λ made. made
        ≡ breach pos BreachKind.UnknownArgument name.now
        (unknown_argument_text (owner_behind owner.now) name.now)) }
{
    let text = unknown_argument_message(alloc, owner, name)?;
    breach_of(alloc, pos, BreachKind::UnknownArgument, name, text)
}

/// An argument that is wanting.
pub fn missing_argument(alloc: Global, owner: &Owner<'_>, pos: Pos, name: &str) -> Made<Breach>
    ensures { IfOk result (λ made. made
        ≡ breach pos BreachKind.MissingArgument name.now
        (missing_argument_text (owner_behind owner.now) name.now)) }
{
    let text = missing_argument_message(alloc, owner, name)?;
    breach_of(alloc, pos, BreachKind::MissingArgument, name, text)
}

/// An argument whose name is given before.
pub fn doubled_argument(alloc: Global, pos: Pos, name: &str) -> Made<Breach>
    ensures { IfOk result (λ made. made
        ≡ breach pos BreachKind.DoubledArgument name.now (doubled_text name.now)) }
{
    let text = doubled_message(alloc, name)?;
    breach_of(alloc, pos, BreachKind::DoubledArgument, name, text)
}

/// An argument with a literal that doesn't fit, for this reason.
pub fn invalid_value(alloc: Global, pos: Pos, name: &str, reason: &str) -> Made<Breach>
    ensures { IfOk result (λ made. made
        ≡ breach pos BreachKind.Value name.now (invalid_text name.now reason.now)) }
{
    let text = invalid_message(alloc, name, reason)?;
    breach_of(alloc, pos, BreachKind::Value, name, text)
}

/// The reason that another type was expected, by its text.
pub fn expected_type(alloc: Global, ty: &str) -> Made<Text>
    ensures { IfOk result (λ text. text ≡ expected_text ty.now) }
{
    let text = expected_message(alloc, ty)?;
    Text::from_string(text)
}

fn unknown_argument_message(alloc: Global, owner: &Owner<'_>, name: &str) -> Made<String>
    ensures { IfOk result (λ text. string_bytes text
        ≡ unknown_argument_text (owner_behind owner.now) name.now) }
{
    match owner {
        Owner::Field(field, parent) => unknown_of_field_message(alloc, name, *field, *parent),
        Owner::Directive(directive) => unknown_of_directive_message(alloc, name, *directive),
    }
}

fn missing_argument_message(alloc: Global, owner: &Owner<'_>, name: &str) -> Made<String>
    ensures { IfOk result (λ text. string_bytes text
        ≡ missing_argument_text (owner_behind owner.now) name.now) }
{
    match owner {
        Owner::Field(field, _) => missing_of_field_message(alloc, name, *field),
        Owner::Directive(directive) => missing_of_directive_message(alloc, name, *directive),
    }
}

#[tactic(auto, unfolding(crate::specs::BreachTexts::unknown_directive_text))]
fn directive_message(alloc: Global, name: &str) -> Made<String>
    ensures { IfOk result (λ text. string_bytes text ≡ unknown_directive_text name.now) }
{
    format!(in alloc; "Directive \"{name}\" is not known here.")
}

#[tactic(auto, using(std::proofs::lemmas::List::append_assoc), unfolding(crate::specs::BreachTexts::unknown_of_field_text))]
fn unknown_of_field_message(alloc: Global, name: &str, field: &str, parent: &str) -> Made<String>
    ensures { IfOk result (λ text. string_bytes text
        ≡ unknown_of_field_text name.now field.now parent.now) }
{
    format!(in alloc; "Unknown argument \"{name}\" on field \"{field}\" of type \"{parent}\".")
}

#[tactic(auto, using(std::proofs::lemmas::List::append_assoc), unfolding(crate::specs::BreachTexts::unknown_of_directive_text))]
fn unknown_of_directive_message(alloc: Global, name: &str, directive: &str) -> Made<String>
    ensures { IfOk result (λ text. string_bytes text
        ≡ unknown_of_directive_text name.now directive.now) }
{
    format!(in alloc; "Unknown argument \"{name}\" on directive \"{directive}\".")
}

#[tactic(auto, using(std::proofs::lemmas::List::append_assoc), unfolding(crate::specs::BreachTexts::missing_of_field_text))]
fn missing_of_field_message(alloc: Global, name: &str, field: &str) -> Made<String>
    ensures { IfOk result (λ text. string_bytes text ≡ missing_of_field_text name.now field.now) }
{
    format!(in alloc; "Argument \"{name}\" of field \"{field}\" is required.")
}

#[tactic(auto, using(std::proofs::lemmas::List::append_assoc), unfolding(crate::specs::BreachTexts::missing_of_directive_text))]
fn missing_of_directive_message(alloc: Global, name: &str, directive: &str) -> Made<String>
    ensures { IfOk result (λ text. string_bytes text
        ≡ missing_of_directive_text name.now directive.now) }
{
    format!(in alloc; "Argument \"{name}\" of directive \"{directive}\" is required.")
}

#[tactic(auto, unfolding(crate::specs::BreachTexts::doubled_text))]
fn doubled_message(alloc: Global, name: &str) -> Made<String>
    ensures { IfOk result (λ text. string_bytes text ≡ doubled_text name.now) }
{
    format!(in alloc; "Argument \"{name}\" is given twice.")
}

#[tactic(auto, using(std::proofs::lemmas::List::append_assoc), unfolding(crate::specs::BreachTexts::invalid_text))]
fn invalid_message(alloc: Global, name: &str, reason: &str) -> Made<String>
    ensures { IfOk result (λ text. string_bytes text ≡ invalid_text name.now reason.now) }
{
    format!(in alloc; "Invalid value for argument \"{name}\", {reason}")
}

#[tactic(auto, unfolding(crate::specs::BreachTexts::expected_text))]
fn expected_message(alloc: Global, ty: &str) -> Made<String>
    ensures { IfOk result (λ text. string_bytes text ≡ expected_text ty.now) }
{
    format!(in alloc; "expected type \"{ty}\"")
}
