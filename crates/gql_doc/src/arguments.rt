//! Reads arguments (section 2.6) and directives (section 2.12).
ghost use Rattle.std.specs.Prelude.{◌≡◌};
ghost use Rattle.gql_doc.specs.Readers.{Leaves};
ghost use Rattle.gql_doc.specs.Drafting.{argument_draft, some_arguments_draft, arguments_draft};
ghost use Rattle.gql_doc.specs.Drafting.{directive_draft, directives_draft};

use crate::cursor::Cursor;
use crate::document::{Argument, Directive, Positioned};
use crate::draft::{Draft, add_item, plain};
use crate::lists::list_of;
use crate::tree::Variables;
use crate::trouble::ReadError;
use crate::values::read_placed_value;
use gql_base::Items;
use gql_tokens::Punctuator;
use std::alloc::Global;

/// Reads arguments in parentheses, or none.
#[tactic(auto, unfolding(crate::specs::Drafting::arguments_draft))]
pub fn read_arguments(
    alloc: Global,
    cursor: &mut Cursor<'_>,
    variables: Variables,
) -> Result<Draft<Items<Argument>>, ReadError>
    ensures { Leaves result cursor.new (arguments_draft variables cursor.old) }
{
    if !cursor.take_if(Punctuator::OpenParen)? {
        return Ok(plain(Items::new(alloc)));
    }
    let arguments = read_some_arguments(alloc, cursor, variables)?;
    cursor.take_sign(Punctuator::CloseParen)?;
    Ok(arguments)
}

/// Reads an argument and more of them, up to the parenthesis.
fn read_some_arguments(
    alloc: Global,
    cursor: &mut Cursor<'_>,
    variables: Variables,
) -> Result<Draft<Items<Argument>>, ReadError>
    ensures { Leaves result cursor.new (some_arguments_draft variables cursor.old) }
{
    let first = read_argument(alloc, cursor, variables)?;
    let mut arguments = list_of(alloc, first)?;
    'more: while cursor.is_before(Punctuator::CloseParen) {
        let argument = read_argument(alloc, cursor, variables)?;
        add_item(&mut arguments, argument)?;
    }
    Ok(arguments)
}

/// Reads an argument.
#[tactic(auto, unfolding(crate::specs::Drafting::argument_draft))]
fn read_argument(
    alloc: Global,
    cursor: &mut Cursor<'_>,
    variables: Variables,
) -> Result<Draft<Argument>, ReadError>
    ensures { Leaves result cursor.new (argument_draft variables cursor.old) }
{
    let name = cursor.take_name()?;
    cursor.take_sign(Punctuator::Colon)?;
    let Draft { part, doubled } = read_placed_value(alloc, cursor, variables)?;
    Ok(Draft {
        part: Argument { name, value: part },
        doubled,
    })
}

/// Reads directives, as long as an `@` is next.
pub fn read_directives(
    alloc: Global,
    cursor: &mut Cursor<'_>,
    variables: Variables,
) -> Result<Draft<Items<Positioned<Directive>>>, ReadError>
    ensures { Leaves result cursor.new (directives_draft variables cursor.old) }
{
    let mut directives = plain(Items::new(alloc));
    'directives: while cursor.is_at(Punctuator::At) {
        let directive = read_directive(alloc, cursor, variables)?;
        add_item(&mut directives, directive)?;
    }
    Ok(directives)
}

/// Reads a directive.
#[tactic(auto, unfolding(crate::specs::Drafting::directive_draft))]
fn read_directive(
    alloc: Global,
    cursor: &mut Cursor<'_>,
    variables: Variables,
) -> Result<Draft<Positioned<Directive>>, ReadError>
    ensures { Leaves result cursor.new (directive_draft variables cursor.old) }
{
    let pos = cursor.take_sign(Punctuator::At)?;
    let name = cursor.take_name()?;
    let Draft { part, doubled } = read_arguments(alloc, cursor, variables)?;
    let node = Directive {
        name,
        arguments: part,
    };
    Ok(Draft {
        part: Positioned { pos, node },
        doubled,
    })
}
