//! What the tokens of a text come to: a document or a type, or the text's first fault.
ghost use Rattle.std.specs.Prelude.{◌≡◌, IfOk};
ghost use Rattle.gql_doc.specs.Spelling.{kind_of as kind_said};
ghost use Rattle.gql_doc.specs.Reading.{kind_at, parsed_by, IsFaultAt, type_text};
ghost use Rattle.gql_doc.specs.Ruled.{query_of};

use crate::cursor::Cursor;
use crate::definitions::{read_document, read_type_text};
use crate::document::ExecutableDocument;
use crate::fault::{ParseFault, ParseKind};
use crate::trouble::{ReadError, Trouble};
use gql_base::{Made, TypeRef};
use gql_tokens::Lexeme;
use std::alloc::{AllocError, Global};

/// The document of the tokens that are left, or the first fault.
#[tactic(auto, using(crate::proofs::DefinitionDrafts::text_read, crate::proofs::DefinitionDrafts::text_stopped))]
pub fn document_of_tokens(
    alloc: Global,
    cursor: &mut Cursor<'_>,
) -> Made<Result<ExecutableDocument, ParseFault>>
    ensures { IfOk result (λ outcome. outcome ≡ query_of cursor.old) }
{
    match read_document(alloc, cursor) {
        Ok(definitions) => Ok(definitions.outcome()),
        Err(error) => Ok(Err(fault_at(cursor, error)?)),
    }
}

/// The type of the tokens that are left, or the first fault.
pub fn type_of_tokens(alloc: Global, cursor: &mut Cursor<'_>) -> Made<Result<TypeRef, ParseFault>>
    ensures { IfOk result (λ outcome. outcome ≡ parsed_by type_text cursor.old) }
{
    match read_type_text(alloc, cursor) {
        Ok(ty) => Ok(Ok(ty)),
        Err(error) => Ok(Err(fault_at(cursor, error)?)),
    }
}

/// The fault at the next token.
fn fault_at(cursor: &Cursor, error: ReadError) -> Made<ParseFault>
    ensures { IsFaultAt cursor.now error result }
{
    match error {
        ReadError::Memory => Err(AllocError),
        ReadError::Stopped(trouble) => Ok(ParseFault {
            kind: kind_of(cursor, trouble),
            pos: cursor.pos(),
        }),
    }
}

/// The kind of trouble at the next token.
fn kind_of(cursor: &Cursor, trouble: Trouble) -> ParseKind
    ensures { result ≡ kind_at trouble cursor.now }
{
    match trouble {
        Trouble::TooDeep => ParseKind::Nesting,
        Trouble::Unexpected => match cursor.next() {
            Some(token) => kind_of_lexeme(&token.lexeme),
            None => ParseKind::Token,
        },
    }
}

/// The kind of fault that an unexpected token is.
fn kind_of_lexeme(lexeme: &Lexeme) -> ParseKind
    ensures { result ≡ kind_said lexeme.now }
{
    match lexeme {
        Lexeme::Unexpected => ParseKind::Character,
        Lexeme::Unsupported => ParseKind::Number,
        _ => ParseKind::Token,
    }
}
