//! Reads values (section 2.9).
ghost use Rattle.std.specs.Prelude.{◌≡◌, OnOk};
ghost use Rattle.gql_doc.specs.Drafts.{with_member};
ghost use Rattle.gql_doc.specs.Readers.{Leaves};
ghost use Rattle.gql_doc.specs.Drafting.{value_draft, list_draft, values_draft, object_draft};
ghost use Rattle.gql_doc.specs.Drafting.{members_draft, member_draft, plain_value as plain_at};
ghost use Rattle.gql_doc.specs.Drafting.{variable_or_scalar, placed_draft};

use crate::cursor::Cursor;
use crate::document::{DocValue, Positioned};
use crate::draft::{Draft, add_item, add_named, plain};
use crate::tree::Variables;
use crate::trouble::ReadError;
use gql_base::{Items, Made, Name, Pairs};
use gql_tokens::Punctuator;
use std::alloc::Global;

/// Levels of nesting that a text may have: of sets, of list and object values together, and of list
/// types.
pub const MAX_LEVELS: usize = 64;

/// A member of an object as it was read.
type Member = (Positioned<Name>, Draft<DocValue>);

/// Reads a value that begins its own levels, with its place.
#[tactic(auto, unfolding(crate::specs::Drafting::placed_draft))]
pub fn read_placed_value(
    alloc: Global,
    cursor: &mut Cursor<'_>,
    variables: Variables,
) -> Result<Draft<Positioned<DocValue>>, ReadError>
    ensures { Leaves result cursor.new (placed_draft variables cursor.old) }
{
    let pos = cursor.pos();
    let Draft { part, doubled } = read_value(alloc, cursor, variables, MAX_LEVELS)?;
    Ok(Draft {
        part: Positioned { pos, node: part },
        doubled,
    })
}

/// Reads a value. So many levels of lists and objects may still open.
#[cycle(value)]
#[tactic(auto, using(crate::proofs::LevelLaws::value_step))]
fn read_value(
    alloc: Global,
    cursor: &mut Cursor<'_>,
    variables: Variables,
    levels: usize,
) -> Result<Draft<DocValue>, ReadError>
    ensures { Leaves result cursor.new (value_draft variables levels cursor.old) }
{
    if let Some(list) = cursor.open_bracket(Punctuator::OpenBracket, levels)? {
        return read_list(alloc, cursor, variables, list.levels);
    }
    if let Some(object) = cursor.open_bracket(Punctuator::OpenBrace, levels)? {
        return read_object(alloc, cursor, variables, object.levels);
    }
    let value = read_plain_value(cursor, variables)?;
    Ok(plain(value))
}

/// Reads a value that is no list and no object.
fn read_plain_value(cursor: &mut Cursor<'_>, variables: Variables) -> Result<DocValue, ReadError>
    ensures { Leaves result cursor.new (plain_at variables cursor.old) }
{
    match variables {
        Variables::Allowed => read_variable_or_scalar(cursor),
        Variables::Forbidden => cursor.take_scalar(),
    }
}

/// Reads a variable or a value of one token.
#[tactic(auto, unfolding(crate::specs::Drafting::variable_or_scalar))]
fn read_variable_or_scalar(cursor: &mut Cursor<'_>) -> Result<DocValue, ReadError>
    ensures { Leaves result cursor.new (variable_or_scalar cursor.old) }
{
    if !cursor.take_if(Punctuator::Dollar)? {
        return cursor.take_scalar();
    }
    let name = cursor.take_name()?;
    Ok(DocValue::Variable(name.node))
}

/// Reads a list after its bracket. So many levels may open within.
#[cycle(value)]
#[tactic(auto, unfolding(crate::specs::Drafting::list_draft))]
fn read_list(
    alloc: Global,
    cursor: &mut Cursor<'_>,
    variables: Variables,
    levels: usize,
) -> Result<Draft<DocValue>, ReadError>
    ensures { Leaves result cursor.new (list_draft variables levels cursor.old) }
{
    let Draft { part, doubled } = read_values(alloc, cursor, variables, levels)?;
    cursor.take_sign(Punctuator::CloseBracket)?;
    Ok(Draft {
        part: DocValue::List(part),
        doubled,
    })
}

/// Reads the values of a list, up to its bracket.
#[cycle(value)]
fn read_values(
    alloc: Global,
    cursor: &mut Cursor<'_>,
    variables: Variables,
    levels: usize,
) -> Result<Draft<Items<DocValue>>, ReadError>
    ensures { Leaves result cursor.new (values_draft variables levels cursor.old) }
{
    let mut values = plain(Items::new(alloc));
    'values: while cursor.is_before(Punctuator::CloseBracket) {
        let value = read_value(alloc, cursor, variables, levels)?;
        add_item(&mut values, value)?;
    }
    Ok(values)
}

/// Reads an object after its brace. So many levels may open within.
#[cycle(value)]
#[tactic(auto, unfolding(crate::specs::Drafting::object_draft))]
fn read_object(
    alloc: Global,
    cursor: &mut Cursor<'_>,
    variables: Variables,
    levels: usize,
) -> Result<Draft<DocValue>, ReadError>
    ensures { Leaves result cursor.new (object_draft variables levels cursor.old) }
{
    let Draft { part, doubled } = read_members(alloc, cursor, variables, levels)?;
    cursor.take_sign(Punctuator::CloseBrace)?;
    Ok(Draft {
        part: DocValue::Object(part),
        doubled,
    })
}

/// Reads the members of an object, up to its brace.
#[cycle(value)]
fn read_members(
    alloc: Global,
    cursor: &mut Cursor<'_>,
    variables: Variables,
    levels: usize,
) -> Result<Draft<Pairs<DocValue>>, ReadError>
    ensures { Leaves result cursor.new (members_draft variables levels cursor.old) }
{
    let mut members = plain(Pairs::new(alloc));
    'members: while cursor.is_before(Punctuator::CloseBrace) {
        let member = read_member(alloc, cursor, variables, levels)?;
        add_member(&mut members, member)?;
    }
    Ok(members)
}

/// Adds a member to those before.
fn add_member(members: &mut Draft<Pairs<DocValue>>, member: Member) -> Made<()>
    ensures { OnOk result (members.new ≡ with_member members.old member) }
{
    let (name, value) = member;
    add_named(
        &mut members.part,
        &mut members.doubled,
        name.node,
        name.pos,
        value,
    )
}

/// Reads a member of an object.
#[cycle(value)]
#[tactic(auto, unfolding(crate::specs::Drafting::member_draft))]
fn read_member(
    alloc: Global,
    cursor: &mut Cursor<'_>,
    variables: Variables,
    levels: usize,
) -> Result<Member, ReadError>
    ensures { Leaves result cursor.new (member_draft variables levels cursor.old) }
{
    let name = cursor.take_name()?;
    cursor.take_sign(Punctuator::Colon)?;
    let value = read_value(alloc, cursor, variables, levels)?;
    Ok((name, value))
}
