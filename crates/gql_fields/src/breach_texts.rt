//! The breaches of fields, conditions and spreads, each with its text.
ghost use Rattle.std.specs.Prelude.{◌≡◌, IfOk, string_bytes};
ghost use Rattle.gql_base.specs.TypeRef.{type_text};
ghost use Rattle.gql_fields.specs.Breach.{breach};
ghost use Rattle.gql_fields.specs.BreachTexts.{composite_text, condition_text};
ghost use Rattle.gql_fields.specs.BreachTexts.{leaf_text, unknown_field_text};
ghost use Rattle.gql_fields.specs.BreachTexts.{unknown_fragment_text};

use crate::breach::{Breach, BreachKind};
use gql_base::{Made, Pos, Text};
use std::alloc::Global;

/// A condition on no object, interface or union.
pub fn unknown_condition(alloc: Global, pos: Pos, name: &str) -> Made<Breach>
    ensures { IfOk result (λ made. made
        ≡ breach pos BreachKind.Condition name.now (condition_text name.now)) }
{
    let text = condition_message(alloc, name)?;
    breach_of(alloc, pos, BreachKind::Condition, name, text)
}

/// A field that its type hasn't.
pub fn unknown_field(alloc: Global, pos: Pos, name: &str, parent: &str) -> Made<Breach>
    ensures { IfOk result (λ made. made
        ≡ breach pos BreachKind.UnknownField name.now (unknown_field_text name.now parent.now)) }
{
    let text = unknown_field_message(alloc, name, parent)?;
    breach_of(alloc, pos, BreachKind::UnknownField, name, text)
}

/// A leaf with a set, by the text of its type.
pub fn set_on_leaf(alloc: Global, pos: Pos, name: &str, ty: &str) -> Made<Breach>
    ensures { IfOk result (λ made. made
        ≡ breach pos BreachKind.Selection name.now (leaf_text name.now ty.now)) }
{
    let text = leaf_message(alloc, name, ty)?;
    breach_of(alloc, pos, BreachKind::Selection, name, text)
}

/// Another type without a set.
pub fn no_set(alloc: Global, pos: Pos, name: &str, ty: &str) -> Made<Breach>
    ensures { IfOk result (λ made. made
        ≡ breach pos BreachKind.Selection name.now (composite_text name.now ty.now)) }
{
    let text = composite_message(alloc, name, ty)?;
    breach_of(alloc, pos, BreachKind::Selection, name, text)
}

/// A spread of a fragment that isn't there.
pub fn unknown_fragment(alloc: Global, pos: Pos, name: &str) -> Made<Breach>
    ensures { IfOk result (λ made. made
        ≡ breach pos BreachKind.UnknownFragment name.now (unknown_fragment_text name.now)) }
{
    let text = unknown_fragment_message(alloc, name)?;
    breach_of(alloc, pos, BreachKind::UnknownFragment, name, text)
}

/// A breach with a copy of the name.
pub fn breach_of(
    alloc: Global,
    pos: Pos,
    kind: BreachKind,
    name: &str,
    text: String,
) -> Made<Breach>
    ensures { IfOk result (λ made. made ≡ breach pos kind name.now (string_bytes text)) }
{
    let name = Text::new(alloc, name)?;
    let text = Text::from_string(text)?;
    Ok(Breach {
        pos,
        kind,
        name,
        text,
    })
}

#[tactic(auto, unfolding(crate::specs::BreachTexts::condition_text))]
fn condition_message(alloc: Global, name: &str) -> Made<String>
    ensures { IfOk result (λ text. string_bytes text ≡ condition_text name.now) }
{
    format!(in alloc; "Fragment condition \"{name}\" is no object, interface or union.")
}

#[tactic(auto, using(std::proofs::lemmas::List::append_assoc), unfolding(crate::specs::BreachTexts::unknown_field_text))]
fn unknown_field_message(alloc: Global, name: &str, parent: &str) -> Made<String>
    ensures { IfOk result (λ text. string_bytes text ≡ unknown_field_text name.now parent.now) }
{
    format!(in alloc; "Unknown field \"{name}\" on type \"{parent}\".")
}

#[tactic(auto, using(std::proofs::lemmas::List::append_assoc), unfolding(crate::specs::BreachTexts::leaf_text))]
fn leaf_message(alloc: Global, name: &str, ty: &str) -> Made<String>
    ensures { IfOk result (λ text. string_bytes text ≡ leaf_text name.now ty.now) }
{
    format!(in alloc; "Field \"{name}\" of type \"{ty}\" must not have a selection.")
}

#[tactic(auto, using(std::proofs::lemmas::List::append_assoc), unfolding(crate::specs::BreachTexts::composite_text))]
fn composite_message(alloc: Global, name: &str, ty: &str) -> Made<String>
    ensures { IfOk result (λ text. string_bytes text ≡ composite_text name.now ty.now) }
{
    format!(in alloc; "Field \"{name}\" of type \"{ty}\" must have a selection.")
}

#[tactic(auto, unfolding(crate::specs::BreachTexts::unknown_fragment_text))]
fn unknown_fragment_message(alloc: Global, name: &str) -> Made<String>
    ensures { IfOk result (λ text. string_bytes text ≡ unknown_fragment_text name.now) }
{
    format!(in alloc; "Unknown fragment \"{name}\".")
}
