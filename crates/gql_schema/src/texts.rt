ghost use Rattle.std.specs.Prelude.{◌≡◌, IfOk};
ghost use Rattle.gql_schema.specs.Faults.{Tells, fault_if};
ghost use Rattle.gql_schema.specs.Texts.{around, dotted};

use crate::schema_error::SchemaError;
use crate::schema_rule::SchemaRule;
use gql_base::{Made, Text};
use std::alloc::Global;

/// A name between two texts.
pub fn text_around(alloc: Global, front: &str, name: &str, back: &str) -> Made<Text>
    ensures { IfOk result (λ text. text ≡ around front.now name.now back.now) }
{
    let mut out = String::new(alloc);
    out.push_str(front)?;
    out.push_str(name)?;
    out.push_str(back)?;
    Text::from_string(out)
}

/// Two names joined by a dot.
pub fn join_names(alloc: Global, owner: &str, name: &str) -> Made<Text>
    ensures { IfOk result (λ text. text ≡ dotted owner.now name.now) }
{
    text_around(alloc, owner, ".", name)
}

/// The fault by a rule, where it is broken, with the text of a name between two texts.
pub fn fault_where(
    alloc: Global,
    broken: bool,
    rule: SchemaRule,
    front: &str,
    name: &str,
    back: &str,
) -> Made<Option<SchemaError>>
    ensures { Tells result (fault_if broken rule (around front.now name.now back.now)) }
{
    if !broken {
        return Ok(None);
    }
    let text = text_around(alloc, front, name, back)?;
    Ok(Some(SchemaError {
        rule: rule.number(),
        text,
    }))
}
