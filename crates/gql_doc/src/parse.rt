//! The document or the type of a text (GraphQL, October 2021, section 2).
ghost use Rattle.std.specs.Prelude.{◌≡◌, ℕ, List, IfOk};
ghost use Rattle.std.specs.Str.{chars};
ghost use Rattle.gql_base.specs.declared.type_ref.TypeRef.{TypeRef};
ghost use Rattle.gql_doc.specs.declared.document.ExecutableDocument.{ExecutableDocument};
ghost use Rattle.gql_doc.specs.declared.fault.ParseFault.{ParseFault};
ghost use Rattle.gql_doc.specs.Spelled.{SpellsDocument, IsDocumentFault, GivesDocument, SpellsType};
ghost use Rattle.gql_doc.specs.Spelled.{IsTypeFault, GivesType};

use crate::cursor::Cursor;
use crate::document::ExecutableDocument;
use crate::fault::ParseFault;
use crate::outcome::{document_of_tokens, type_of_tokens};
use gql_base::{Made, TypeRef};
use std::alloc::Global;

/// The document that a text spells, or the text's first fault.
pub fn parse_query(alloc: Global, text: &str) -> Made<Result<ExecutableDocument, ParseFault>>
    ensures given { IfOk result (λ outcome. GivesDocument (chars text.now) outcome) }
    ensures spelled { (document : ExecutableDocument) → SpellsDocument (chars text.now) document
        → IfOk result (λ outcome. outcome ≡ Ok document) }
    ensures faulty { (fault : ParseFault) → IsDocumentFault (chars text.now) fault → IfOk result
        (λ outcome. outcome ≡ Err fault) }
{
    let mut tokens = Cursor::of(alloc, text)?;
    document_of_tokens(alloc, &mut tokens)
}

/// The type that a text spells, or the text's first fault.
pub fn parse_type(alloc: Global, text: &str) -> Made<Result<TypeRef, ParseFault>>
    ensures given { IfOk result (λ outcome. GivesType (chars text.now) outcome) }
    ensures spelled { (ty : TypeRef) → SpellsType (chars text.now) ty → IfOk result
        (λ outcome. outcome ≡ Ok ty) }
    ensures faulty { (fault : ParseFault) → IsTypeFault (chars text.now) fault → IfOk result
        (λ outcome. outcome ≡ Err fault) }
{
    let mut tokens = Cursor::of(alloc, text)?;
    type_of_tokens(alloc, &mut tokens)
}

/// A text spells one document at most, it has one first fault at most, and it never has both.
pub fn one_reading_of_a_document()
    ensures document { (text : List ℕ) (one other : ExecutableDocument) → SpellsDocument text one
        → SpellsDocument text other → one ≡ other }
    ensures fault { (text : List ℕ) (one other : ParseFault) → IsDocumentFault text one
        → IsDocumentFault text other → one ≡ other }
    ensures not_both { (text : List ℕ) (document : ExecutableDocument) (fault : ParseFault)
        → SpellsDocument text document → IsDocumentFault text fault → ⊥ }
{}

/// A text spells one type at most, it has one first fault at most, and it never has both.
pub fn one_reading_of_a_type()
    ensures ty { (text : List ℕ) (one other : TypeRef) → SpellsType text one → SpellsType text other
        → one ≡ other }
    ensures fault { (text : List ℕ) (one other : ParseFault) → IsTypeFault text one
        → IsTypeFault text other → one ≡ other }
    ensures not_both { (text : List ℕ) (ty : TypeRef) (fault : ParseFault) → SpellsType text ty
        → IsTypeFault text fault → ⊥ }
{}
