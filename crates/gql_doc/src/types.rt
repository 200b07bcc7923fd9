//! Reads types (section 2.11).
ghost use Rattle.gql_doc.specs.Readers.{Leaves};
ghost use Rattle.gql_doc.specs.Reading.{type_at, bare_type_by, list_type_at, null_or_not};
ghost use Rattle.gql_doc.specs.Reading.{placed_type};
ghost use Rattle.gql_doc.specs.Drafting.{list_type_behind};

use crate::cursor::Cursor;
use crate::document::Positioned;
use crate::trouble::ReadError;
use crate::values::MAX_LEVELS;
use gql_base::TypeRef;
use gql_tokens::Punctuator;
use std::alloc::Global;

/// Reads a type with its place.
#[tactic(auto, unfolding(crate::specs::Reading::placed_type))]
pub fn read_placed_type(
    alloc: Global,
    cursor: &mut Cursor<'_>,
) -> Result<Positioned<TypeRef>, ReadError>
    ensures { Leaves result cursor.new (placed_type cursor.old) }
{
    let pos = cursor.pos();
    let node = read_type(alloc, cursor, MAX_LEVELS)?;
    Ok(Positioned { pos, node })
}

/// Reads a type. So many levels of lists may still open.
#[cycle(ty)]
#[tactic(auto, using(crate::proofs::LevelLaws::type_step))]
pub fn read_type(
    alloc: Global,
    cursor: &mut Cursor<'_>,
    levels: usize,
) -> Result<TypeRef, ReadError>
    ensures { Leaves result cursor.new (type_at levels cursor.old) }
{
    let bare = read_bare_type(alloc, cursor, levels)?;
    read_bang(alloc, cursor, bare)
}

/// Reads the `!` after a type, if one is there.
#[tactic(auto, using(crate::proofs::LevelLaws::bang_step))]
fn read_bang(alloc: Global, cursor: &mut Cursor<'_>, bare: TypeRef) -> Result<TypeRef, ReadError>
    ensures { Leaves result cursor.new (null_or_not bare cursor.old) }
{
    if !cursor.take_if(Punctuator::Bang)? {
        return Ok(bare);
    }
    Ok(bare.non_null(alloc)?)
}

/// Reads a type without a `!` at its end.
#[cycle(ty)]
#[tactic(auto, using(crate::proofs::LevelLaws::bare_type_step))]
fn read_bare_type(
    alloc: Global,
    cursor: &mut Cursor<'_>,
    levels: usize,
) -> Result<TypeRef, ReadError>
    ensures { Leaves result cursor.new (bare_type_by (list_type_at levels) cursor.old) }
{
    if let Some(list) = cursor.open_bracket(Punctuator::OpenBracket, levels)? {
        return read_list_type(alloc, cursor, list.levels);
    }
    let name = cursor.take_name()?;
    Ok(TypeRef::Named(name.node))
}

/// Reads a list type after its bracket. So many levels may open within.
#[cycle(ty)]
fn read_list_type(
    alloc: Global,
    cursor: &mut Cursor<'_>,
    levels: usize,
) -> Result<TypeRef, ReadError>
    ensures { Leaves result cursor.new (list_type_behind (type_at levels) cursor.old) }
{
    let inner = read_type(alloc, cursor, levels)?;
    cursor.take_sign(Punctuator::CloseBracket)?;
    Ok(inner.list(alloc)?)
}
