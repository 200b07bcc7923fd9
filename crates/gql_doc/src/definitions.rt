//! Reads definitions (sections 2.2, 2.3 and 2.8) and whole texts.
ghost use Rattle.gql_doc.specs.Readers.{Leaves, optional};
ghost use Rattle.gql_doc.specs.Reading.{is_name, take_name, type_text};
ghost use Rattle.gql_doc.specs.Drafting.{shorthand_draft, operation_draft, fragment_draft};
ghost use Rattle.gql_doc.specs.Drafting.{definition_draft, definitions_draft, document_draft};

use crate::arguments::read_directives;
use crate::cursor::Cursor;
use crate::document::{FragmentDefinition, OperationDefinition, OperationType, Positioned};
use crate::draft::Draft;
use crate::gathering::{DefinitionDraft, Gathering};
use crate::selections::{read_condition, read_set};
use crate::tree::Variables;
use crate::trouble::ReadError;
use crate::types::read_type;
use crate::values::MAX_LEVELS;
use crate::variables::read_variables;
use gql_base::{Items, Name, TypeRef};
use gql_tokens::Punctuator;
use std::alloc::Global;

/// Reads the definitions of a document, and the end of the text.
#[tactic(auto, unfolding(crate::specs::Drafting::document_draft))]
pub fn read_document(alloc: Global, cursor: &mut Cursor<'_>) -> Result<Gathering, ReadError>
    ensures { Leaves result cursor.new (document_draft cursor.old) }
{
    let definitions = read_definitions(alloc, cursor)?;
    cursor.take_end()?;
    Ok(definitions)
}

/// Reads one type, and the end of the text.
#[tactic(auto, unfolding(crate::specs::Reading::type_text))]
pub fn read_type_text(alloc: Global, cursor: &mut Cursor<'_>) -> Result<TypeRef, ReadError>
    ensures { Leaves result cursor.new (type_text cursor.old) }
{
    let ty = read_type(alloc, cursor, MAX_LEVELS)?;
    cursor.take_end()?;
    Ok(ty)
}

/// Reads a definition and more of them, up to the end.
fn read_definitions(alloc: Global, cursor: &mut Cursor<'_>) -> Result<Gathering, ReadError>
    ensures { Leaves result cursor.new (definitions_draft cursor.old) }
{
    let first = read_definition(alloc, cursor)?;
    let mut definitions = Gathering::new(alloc);
    definitions.add(first)?;
    'more: while cursor.is_before_end() {
        let definition = read_definition(alloc, cursor)?;
        definitions.add(definition)?;
    }
    Ok(definitions)
}

/// Reads a definition.
#[tactic(auto, unfolding(crate::specs::Drafting::definition_draft))]
fn read_definition(alloc: Global, cursor: &mut Cursor<'_>) -> Result<DefinitionDraft, ReadError>
    ensures { Leaves result cursor.new (definition_draft cursor.old) }
{
    if cursor.is_at(Punctuator::OpenBrace) {
        return read_shorthand(alloc, cursor);
    }
    if cursor.is_at_word("fragment") {
        return read_fragment(alloc, cursor);
    }
    read_operation(alloc, cursor)
}

/// Reads a query that is written as its set alone.
#[tactic(auto, unfolding(crate::specs::Drafting::shorthand_draft))]
fn read_shorthand(alloc: Global, cursor: &mut Cursor<'_>) -> Result<DefinitionDraft, ReadError>
    ensures { Leaves result cursor.new (shorthand_draft cursor.old) }
{
    let pos = cursor.pos();
    let Draft { part, doubled } = read_set(alloc, cursor, MAX_LEVELS)?;
    let part = OperationDefinition {
        ty: OperationType::Query,
        variable_definitions: Items::new(alloc),
        directives: Items::new(alloc),
        selection_set: part,
    };
    Ok(DefinitionDraft::Operation {
        pos,
        name: None,
        operation: Draft { part, doubled },
    })
}

/// Reads an operation with its keyword.
#[tactic(auto, unfolding(crate::specs::Drafting::operation_draft))]
fn read_operation(alloc: Global, cursor: &mut Cursor<'_>) -> Result<DefinitionDraft, ReadError>
    ensures { Leaves result cursor.new (operation_draft cursor.old) }
{
    let (pos, ty) = cursor.take_operation()?;
    let name = read_name_if_any(cursor)?;
    let variables = read_variables(alloc, cursor)?;
    let directives = read_directives(alloc, cursor, Variables::Allowed)?;
    let set = read_set(alloc, cursor, MAX_LEVELS)?;
    let doubled = variables.doubled.or(directives.doubled.or(set.doubled));
    let part = OperationDefinition {
        ty,
        variable_definitions: variables.part,
        directives: directives.part,
        selection_set: set.part,
    };
    Ok(DefinitionDraft::Operation {
        pos,
        name,
        operation: Draft { part, doubled },
    })
}

/// Reads a name, if one is next.
fn read_name_if_any(cursor: &mut Cursor<'_>) -> Result<Option<Positioned<Name>>, ReadError>
    ensures { Leaves result cursor.new (optional is_name take_name cursor.old) }
{
    if !cursor.is_at_name() {
        return Ok(None);
    }
    let name = cursor.take_name()?;
    Ok(Some(name))
}

/// Reads the definition of a fragment.
#[tactic(auto, unfolding(crate::specs::Drafting::fragment_draft))]
fn read_fragment(alloc: Global, cursor: &mut Cursor<'_>) -> Result<DefinitionDraft, ReadError>
    ensures { Leaves result cursor.new (fragment_draft cursor.old) }
{
    let pos = cursor.take_word("fragment")?;
    let name = cursor.take_fragment_name()?;
    let type_condition = read_condition(cursor)?;
    let directives = read_directives(alloc, cursor, Variables::Allowed)?;
    let set = read_set(alloc, cursor, MAX_LEVELS)?;
    let part = FragmentDefinition {
        type_condition,
        directives: directives.part,
        selection_set: set.part,
    };
    let doubled = directives.doubled.or(set.doubled);
    Ok(DefinitionDraft::Fragment {
        pos,
        name,
        fragment: Draft { part, doubled },
    })
}
