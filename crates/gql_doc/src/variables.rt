//! Reads definitions of variables (section 2.10).
ghost use Rattle.gql_doc.specs.Readers.{Leaves};
ghost use Rattle.gql_doc.specs.Drafting.{default_draft, variable_draft, some_variables_draft};
ghost use Rattle.gql_doc.specs.Drafting.{variables_draft};

use crate::arguments::read_directives;
use crate::constants::constant_of;
use crate::cursor::Cursor;
use crate::document::{Positioned, VariableDefinition};
use crate::draft::{Draft, add_item, plain};
use crate::lists::list_of;
use crate::tree::Variables;
use crate::trouble::ReadError;
use crate::types::read_placed_type;
use crate::values::read_placed_value;
use gql_base::{Items, Value};
use gql_tokens::Punctuator;
use std::alloc::Global;

/// Reads definitions of variables in parentheses, or none.
#[tactic(auto, unfolding(crate::specs::Drafting::variables_draft))]
pub fn read_variables(
    alloc: Global,
    cursor: &mut Cursor<'_>,
) -> Result<Draft<Items<Positioned<VariableDefinition>>>, ReadError>
    ensures { Leaves result cursor.new (variables_draft cursor.old) }
{
    if !cursor.take_if(Punctuator::OpenParen)? {
        return Ok(plain(Items::new(alloc)));
    }
    let variables = read_some_variables(alloc, cursor)?;
    cursor.take_sign(Punctuator::CloseParen)?;
    Ok(variables)
}

/// Reads the definition of a variable and more of them, up to the parenthesis.
fn read_some_variables(
    alloc: Global,
    cursor: &mut Cursor<'_>,
) -> Result<Draft<Items<Positioned<VariableDefinition>>>, ReadError>
    ensures { Leaves result cursor.new (some_variables_draft cursor.old) }
{
    let first = read_variable(alloc, cursor)?;
    let mut variables = list_of(alloc, first)?;
    'more: while cursor.is_before(Punctuator::CloseParen) {
        let variable = read_variable(alloc, cursor)?;
        add_item(&mut variables, variable)?;
    }
    Ok(variables)
}

/// Reads the definition of a variable.
#[tactic(auto, unfolding(crate::specs::Drafting::variable_draft))]
fn read_variable(
    alloc: Global,
    cursor: &mut Cursor<'_>,
) -> Result<Draft<Positioned<VariableDefinition>>, ReadError>
    ensures { Leaves result cursor.new (variable_draft cursor.old) }
{
    let pos = cursor.take_sign(Punctuator::Dollar)?;
    let name = cursor.take_name()?;
    cursor.take_sign(Punctuator::Colon)?;
    let var_type = read_placed_type(alloc, cursor)?;
    let default = read_default(alloc, cursor)?;
    let directives = read_directives(alloc, cursor, Variables::Forbidden)?;
    let node = VariableDefinition {
        name,
        var_type,
        directives: directives.part,
        default: default.part,
    };
    Ok(Draft {
        part: Positioned { pos, node },
        doubled: default.doubled.or(directives.doubled),
    })
}

/// Reads the default of a variable, if one is there.
#[tactic(auto, unfolding(crate::specs::Drafting::default_draft))]
fn read_default(
    alloc: Global,
    cursor: &mut Cursor<'_>,
) -> Result<Draft<Option<Positioned<Value>>>, ReadError>
    ensures { Leaves result cursor.new (default_draft cursor.old) }
{
    if !cursor.take_if(Punctuator::Equals)? {
        return Ok(plain(None));
    }
    let Draft { part, doubled } = read_placed_value(alloc, cursor, Variables::Forbidden)?;
    let node = constant_of(alloc, &part.node)?;
    Ok(Draft {
        part: Some(Positioned {
            pos: part.pos,
            node,
        }),
        doubled,
    })
}
