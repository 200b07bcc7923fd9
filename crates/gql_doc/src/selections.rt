//! Reads selections and their sets (sections 2.4, 2.5, 2.7 and 2.8).
ghost use Rattle.std.specs.Prelude.{◌≡◌, codes};
ghost use Rattle.gql_doc.specs.Grammar.{head_pos};
ghost use Rattle.gql_doc.specs.Readers.{Leaves, optional};
ghost use Rattle.gql_doc.specs.Reading.{is_word, head as head_at, condition};
ghost use Rattle.gql_doc.specs.Drafting.{set_draft, set_behind, selections_draft, selection_draft};
ghost use Rattle.gql_doc.specs.Drafting.{field_draft, set_or_none_draft, spread_draft};
ghost use Rattle.gql_doc.specs.Drafting.{spread_behind, inline_behind, field_of as field_in};

use crate::arguments::{read_arguments, read_directives};
use crate::cursor::Cursor;
use crate::document::{
    Argument, Directive, Field, FragmentSpread, InlineFragment, Positioned, Selection, SelectionSet,
};
use crate::draft::{Draft, add_item, plain};
use crate::lists::list_of;
use crate::tree::Variables;
use crate::trouble::{ReadError, Trouble};
use gql_base::{Items, Name, Pos};
use gql_tokens::Punctuator;
use std::alloc::Global;

/// Reads a set. So many levels of sets may still open.
#[cycle(set)]
#[tactic(auto, using(crate::proofs::LevelLaws::set_step))]
pub fn read_set(
    alloc: Global,
    cursor: &mut Cursor<'_>,
    levels: usize,
) -> Result<Draft<Positioned<SelectionSet>>, ReadError>
    ensures { Leaves result cursor.new (set_draft levels cursor.old) }
{
    match cursor.open_bracket(Punctuator::OpenBrace, levels)? {
        Some(set) => read_set_behind(alloc, cursor, set.pos, set.levels),
        None => Err(ReadError::Stopped(Trouble::Unexpected)),
    }
}

/// Reads a set after its brace. So many levels may open within.
#[cycle(set)]
#[tactic(auto, unfolding(crate::specs::Drafting::set_behind))]
fn read_set_behind(
    alloc: Global,
    cursor: &mut Cursor<'_>,
    pos: Pos,
    levels: usize,
) -> Result<Draft<Positioned<SelectionSet>>, ReadError>
    ensures { Leaves result cursor.new (set_behind levels pos cursor.old) }
{
    let Draft { part, doubled } = read_selections(alloc, cursor, levels)?;
    cursor.take_sign(Punctuator::CloseBrace)?;
    let node = SelectionSet { items: part };
    Ok(Draft {
        part: Positioned { pos, node },
        doubled,
    })
}

/// Reads a selection and more of them, up to the brace.
#[cycle(set)]
fn read_selections(
    alloc: Global,
    cursor: &mut Cursor<'_>,
    levels: usize,
) -> Result<Draft<Items<Positioned<Selection>>>, ReadError>
    ensures { Leaves result cursor.new (selections_draft levels cursor.old) }
{
    let first = read_selection(alloc, cursor, levels)?;
    let mut selections = list_of(alloc, first)?;
    'more: while cursor.is_before(Punctuator::CloseBrace) {
        let selection = read_selection(alloc, cursor, levels)?;
        add_item(&mut selections, selection)?;
    }
    Ok(selections)
}

/// Reads a selection.
#[cycle(set)]
#[tactic(auto, unfolding(crate::specs::Drafting::selection_draft))]
fn read_selection(
    alloc: Global,
    cursor: &mut Cursor<'_>,
    levels: usize,
) -> Result<Draft<Positioned<Selection>>, ReadError>
    ensures { Leaves result cursor.new (selection_draft levels cursor.old) }
{
    let pos = cursor.pos();
    if cursor.take_if(Punctuator::Spread)? {
        read_spread(alloc, cursor, pos, levels)
    } else {
        read_field(alloc, cursor, levels)
    }
}

/// Reads a field.
#[cycle(set)]
#[tactic(auto, unfolding(crate::specs::Drafting::field_draft))]
fn read_field(
    alloc: Global,
    cursor: &mut Cursor<'_>,
    levels: usize,
) -> Result<Draft<Positioned<Selection>>, ReadError>
    ensures { Leaves result cursor.new (field_draft levels cursor.old) }
{
    let (alias, name) = read_head(cursor)?;
    let arguments = read_arguments(alloc, cursor, Variables::Allowed)?;
    let directives = read_directives(alloc, cursor, Variables::Allowed)?;
    let pos = pos_of(&alias, &name);
    let set = read_set_or_none(alloc, cursor, pos, levels)?;
    Ok(field_of(alias, name, arguments, directives, set))
}

/// The field of its parts.
fn field_of(
    alias: Option<Positioned<Name>>,
    name: Positioned<Name>,
    arguments: Draft<Items<Argument>>,
    directives: Draft<Items<Positioned<Directive>>>,
    set: Draft<Positioned<SelectionSet>>,
) -> Draft<Positioned<Selection>>
    ensures { result ≡ field_in alias name arguments directives set }
{
    let pos = pos_of(&alias, &name);
    let doubled = arguments.doubled.or(directives.doubled.or(set.doubled));
    let node = Field {
        alias,
        name,
        arguments: arguments.part,
        directives: directives.part,
        selection_set: set.part,
    };
    let node = Selection::Field(Positioned { pos, node });
    Draft {
        part: Positioned { pos, node },
        doubled,
    }
}

/// Reads an alias, if one is there, and a name.
#[tactic(auto, using(crate::proofs::LevelLaws::head_step))]
fn read_head(
    cursor: &mut Cursor<'_>,
) -> Result<(Option<Positioned<Name>>, Positioned<Name>), ReadError>
    ensures { Leaves result cursor.new (head_at cursor.old) }
{
    let first = cursor.take_name()?;
    if !cursor.take_if(Punctuator::Colon)? {
        return Ok((None, first));
    }
    let name = cursor.take_name()?;
    Ok((Some(first), name))
}

/// The place of a field: its first token's.
fn pos_of(alias: &Option<Positioned<Name>>, name: &Positioned<Name>) -> Pos
    ensures { result ≡ head_pos alias.now name.now }
{
    match alias {
        Some(alias) => alias.pos,
        None => name.pos,
    }
}

/// Reads the set of a field, or none at the field's place.
#[cycle(set)]
#[tactic(auto, using(crate::proofs::LevelLaws::set_or_none_step))]
fn read_set_or_none(
    alloc: Global,
    cursor: &mut Cursor<'_>,
    field: Pos,
    levels: usize,
) -> Result<Draft<Positioned<SelectionSet>>, ReadError>
    ensures { Leaves result cursor.new (set_or_none_draft levels field cursor.old) }
{
    if let Some(set) = cursor.open_bracket(Punctuator::OpenBrace, levels)? {
        return read_set_behind(alloc, cursor, set.pos, set.levels);
    }
    let items = Items::new(alloc);
    Ok(plain(Positioned {
        pos: field,
        node: SelectionSet { items },
    }))
}

/// Reads the spread of a fragment, or an inline fragment, after its dots.
#[cycle(set)]
#[tactic(auto, unfolding(crate::specs::Drafting::spread_draft))]
fn read_spread(
    alloc: Global,
    cursor: &mut Cursor<'_>,
    pos: Pos,
    levels: usize,
) -> Result<Draft<Positioned<Selection>>, ReadError>
    ensures { Leaves result cursor.new (spread_draft levels pos cursor.old) }
{
    if cursor.is_at_fragment_name() {
        read_spread_behind(alloc, cursor, pos)
    } else {
        read_inline_behind(alloc, cursor, pos, levels)
    }
}

/// Reads the spread of a fragment after its dots.
#[tactic(auto, unfolding(crate::specs::Drafting::spread_behind))]
fn read_spread_behind(
    alloc: Global,
    cursor: &mut Cursor<'_>,
    pos: Pos,
) -> Result<Draft<Positioned<Selection>>, ReadError>
    ensures { Leaves result cursor.new (spread_behind pos cursor.old) }
{
    let fragment_name = cursor.take_fragment_name()?;
    let Draft { part, doubled } = read_directives(alloc, cursor, Variables::Allowed)?;
    let node = FragmentSpread {
        fragment_name,
        directives: part,
    };
    let node = Selection::FragmentSpread(Positioned { pos, node });
    Ok(Draft {
        part: Positioned { pos, node },
        doubled,
    })
}

/// Reads an inline fragment after its dots.
#[cycle(set)]
#[tactic(auto, unfolding(crate::specs::Drafting::inline_behind))]
fn read_inline_behind(
    alloc: Global,
    cursor: &mut Cursor<'_>,
    pos: Pos,
    levels: usize,
) -> Result<Draft<Positioned<Selection>>, ReadError>
    ensures { Leaves result cursor.new (inline_behind levels pos cursor.old) }
{
    let type_condition = read_condition_if_any(cursor)?;
    let directives = read_directives(alloc, cursor, Variables::Allowed)?;
    let set = read_set(alloc, cursor, levels)?;
    let node = InlineFragment {
        type_condition,
        directives: directives.part,
        selection_set: set.part,
    };
    let node = Selection::InlineFragment(Positioned { pos, node });
    Ok(Draft {
        part: Positioned { pos, node },
        doubled: directives.doubled.or(set.doubled),
    })
}

/// Reads a condition, if `on` is next.
#[tactic(auto, using(crate::proofs::LevelLaws::condition_step))]
fn read_condition_if_any(cursor: &mut Cursor<'_>) -> Result<Option<Positioned<Name>>, ReadError>
    ensures { Leaves result cursor.new (optional (is_word (codes "on")) condition cursor.old) }
{
    if !cursor.take_if_word("on")? {
        return Ok(None);
    }
    let condition = cursor.take_name()?;
    Ok(Some(condition))
}

/// Reads the condition of a fragment: `on`, and a name.
#[tactic(auto, unfolding(crate::specs::Reading::condition))]
pub fn read_condition(cursor: &mut Cursor<'_>) -> Result<Positioned<Name>, ReadError>
    ensures { Leaves result cursor.new (condition cursor.old) }
{
    cursor.take_word("on")?;
    cursor.take_name()
}
