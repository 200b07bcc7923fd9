//! The tokens that are left to read.
ghost use Rattle.std.specs.Prelude.{◌≡◌, ◌∷◌, ◌<◌, true, IfOk, IfSome, OnOk};
ghost use Rattle.std.specs.Str.{chars};
ghost use Rattle.std.specs.Option.{option_copied};
ghost use Rattle.gql_tokens.specs.Place.{text_start};
ghost use Rattle.gql_tokens.specs.Lexer.{Lexes, EndFinally};
ghost use Rattle.gql_tokens.specs.Reaching.{IsReached, left};
ghost use Rattle.gql_tokens.proofs.TokenFronts.{tokens_behind, tokens_left, is_last};
ghost use Rattle.gql_doc.specs.Readers.{first, behind_first, begins, place_of, Leaves};
ghost use Rattle.gql_doc.specs.Drafting.{taken_if, open_at, scalar_in, named_value};
ghost use Rattle.gql_doc.specs.Drafting.{scalar as read_scalar};
ghost use Rattle.gql_doc.specs.Reading as reading;
ghost use Rattle.gql_doc.specs.Reading.{is_sign, is_word, is_name, is_fragment_name, is_scalar};
ghost use Rattle.gql_doc.specs.Reading.{is_end, other_than, before_end, says_sign, says_word};
ghost use Rattle.gql_doc.specs.Reading.{next_operation as kind_next};
ghost use Rattle.gql_doc.specs.Reading.{take_sign as read_sign, take_word as read_word};
ghost use Rattle.gql_doc.specs.Reading.{take_name as read_name};
ghost use Rattle.gql_doc.specs.Reading.{take_fragment_name as read_fragment_name};
ghost use Rattle.gql_doc.specs.Reading.{take_operation as read_operation, take_end as read_end};

use crate::document::{DocValue, OperationType, Positioned};
use crate::trouble::{ReadError, Trouble};
use gql_base::{Made, Name, Pos, Text};
use gql_tokens::{Lexeme, Punctuator, Reached, Token, is_final, next_token};
use std::alloc::Global;
use std::marker::Model;
use std::mem;

/// The tokens that are left to read. The next one is at hand, and those after it are read from the
/// text as they are asked for. Contracts see them all, in their order.
#[derive(Drop)]
pub struct Cursor<'a> {
    alloc: Global,
    text: &'a str,
    reached: Reached,
    next: Option<Token>,
}

impl<'a> Model for Cursor<'a> {
    ghost use Rattle.std.specs.Prelude.{List};
    ghost use Rattle.gql_tokens.specs.declared.token.Token.{Token};
    ghost use Rattle.gql_tokens.specs.Reaching.{IsReached, left};
    ghost use Rattle.gql_tokens.proofs.TokenFronts.{tokens_left};

    ghost Value = { List Token };

    ghost view = { λ cursor. tokens_left cursor.next cursor.reached.place
        (left cursor.text.now cursor.reached.at) };

    ghost invariant = { λ cursor. IsReached cursor.text.now cursor.reached };
}

/// A bracket that was opened: its place, and the levels that may still open within.
#[derive(Clone, Copy)]
pub struct Opened {
    pub pos: Pos,
    pub levels: usize,
}

/// Whether no token stands after this one.
fn is_last(next: &Option<Token>) -> bool
    ensures { result ≡ is_last next.now }
{
    match next {
        Some(token) => is_final(&token.lexeme),
        None => true,
    }
}

/// The token that follows, unless the last one was read.
fn following(alloc: Global, text: &str, reached: &mut Reached, last: bool) -> Made<Option<Token>>
    requires { IsReached text.now reached.old }
    ensures reached { IsReached text.now reached.new }
    ensures next { IfOk result (λ next.
        tokens_behind last reached.old.place (left text.now reached.old.at)
        ≡ tokens_left next reached.new.place (left text.now reached.new.at)) }
{
    if last {
        return Ok(None);
    }
    let next = next_token(alloc, text, reached)?;
    Ok(Some(next))
}

impl<'a> Cursor<'a> {
    /// The tokens of a text.
    pub fn of(alloc: Global, text: &'a str) -> Made<Cursor<'a>>
        ensures exact { IfOk result (λ tokens. Lexes text_start (chars text.now) tokens) }
        ensures ends { IfOk result EndFinally }
    {
        let mut reached = Reached::start();
        let next = next_token(alloc, text, &mut reached)?;
        Ok(Cursor {
            alloc,
            text,
            reached,
            next: Some(next),
        })
    }

    /// The next token.
    pub fn next(&self) -> Option<&Token>
        ensures { option_copied result ≡ first self.now }
    {
        match &self.next {
            Some(token) => Some(token),
            None => None,
        }
    }

    /// Takes the next token.
    #[tactic(auto, using(gql_tokens::proofs::TokenFronts::taken_is, crate::proofs::CursorLaws::nothing_left))]
    pub fn pop(&mut self) -> Made<Token>
        requires { begins (λ _. true) self.old ≡ true }
        ensures { IfOk result (λ token. self.old ≡ token ∷ self.new) }
    {
        let last = is_last(&self.next);
        let next = following(self.alloc, self.text, &mut self.reached, last)?;
        match mem::replace(&mut self.next, next) {
            Some(token) => Ok(token),
            None => unreachable!(),
        }
    }

    /// Lets the next token go.
    fn skip(&mut self) -> Made<()>
        requires { begins (λ _. true) self.old ≡ true }
        ensures { OnOk result (self.new ≡ behind_first self.old) }
    {
        let last = is_last(&self.next);
        self.next = following(self.alloc, self.text, &mut self.reached, last)?;
        Ok(())
    }

    /// Whether this sign is next.
    pub fn is_at(&self, sign: Punctuator) -> bool
        ensures { result ≡ begins (is_sign sign) self.now }
    {
        match self.next() {
            Some(token) => says(&token.lexeme, sign),
            None => false,
        }
    }

    /// The place of the next token.
    pub fn pos(&self) -> Pos
        ensures { result ≡ place_of self.now }
    {
        match self.next() {
            Some(token) => token.pos,
            None => Pos { line: 1, column: 1 },
        }
    }

    /// Whether this word is next.
    pub fn is_at_word(&self, word: &str) -> bool
        ensures { result ≡ begins (is_word word.now) self.now }
    {
        match self.next() {
            Some(token) => says_this(&token.lexeme, word),
            None => false,
        }
    }

    /// Whether a name is next.
    pub fn is_at_name(&self) -> bool
        ensures { result ≡ begins is_name self.now }
    {
        match self.next() {
            Some(token) => says_name(&token.lexeme),
            None => false,
        }
    }

    /// Whether a name other than `on` is next.
    pub fn is_at_fragment_name(&self) -> bool
        ensures { result ≡ begins is_fragment_name self.now }
    {
        match self.next() {
            Some(token) => says_name(&token.lexeme) && !says_this(&token.lexeme, "on"),
            None => false,
        }
    }

    /// Whether a number, a string or a name is next.
    fn is_at_scalar(&self) -> bool
        ensures { result ≡ begins is_scalar self.now }
    {
        match self.next() {
            Some(token) => says_scalar(&token.lexeme),
            None => false,
        }
    }

    /// Whether the end is next.
    fn is_at_end(&self) -> bool
        ensures { result ≡ begins is_end self.now }
    {
        match self.next() {
            Some(token) => says_end(&token.lexeme),
            None => false,
        }
    }

    /// The kind of operation that the next token is the word of.
    fn next_operation(&self) -> Option<OperationType>
        ensures { result ≡ kind_next self.now }
    {
        match self.next() {
            Some(token) => operation_said(&token.lexeme),
            None => None,
        }
    }

    /// Whether there is a next token, and it isn't this sign.
    pub fn is_before(&self, sign: Punctuator) -> bool
        ensures { result ≡ begins (other_than sign) self.now }
    {
        match self.next() {
            Some(token) => !says(&token.lexeme, sign),
            None => false,
        }
    }

    /// Whether there is a next token, and it isn't the end.
    pub fn is_before_end(&self) -> bool
        ensures { result ≡ begins before_end self.now }
    {
        match self.next() {
            Some(token) => !says_end(&token.lexeme),
            None => false,
        }
    }

    /// Takes a sign if it is next, and answers whether it was.
    #[tactic(auto, using(crate::proofs::CursorLaws::one_there, crate::proofs::CursorLaws::not_there))]
    pub fn take_if(&mut self, sign: Punctuator) -> Result<bool, ReadError>
        ensures { Leaves result self.new (taken_if (is_sign sign) self.old) }
    {
        if !self.is_at(sign) {
            return Ok(false);
        }
        self.skip()?;
        Ok(true)
    }

    /// Takes a word if it is next, and answers whether it was.
    #[tactic(auto, using(crate::proofs::CursorLaws::one_there, crate::proofs::CursorLaws::not_there))]
    pub fn take_if_word(&mut self, word: &str) -> Result<bool, ReadError>
        ensures { Leaves result self.new (taken_if (is_word word.now) self.old) }
    {
        if !self.is_at_word(word) {
            return Ok(false);
        }
        self.skip()?;
        Ok(true)
    }

    /// Opens a bracket if it is next: takes it and counts its level, or answers that it lies too
    /// deep where no level is left.
    #[tactic(auto, using(crate::proofs::CursorLaws::not_opened, crate::proofs::CursorLaws::none_left, crate::proofs::CursorLaws::opened_one))]
    pub fn open_bracket(
        &mut self,
        sign: Punctuator,
        levels: usize,
    ) -> Result<Option<Opened>, ReadError>
        ensures read { Leaves result self.new (open_at sign levels self.old) }
        ensures fewer { IfOk result (λ opened. IfSome opened (λ here. here.levels < levels)) }
    {
        if !self.is_at(sign) {
            return Ok(None);
        }
        if levels == 0 {
            return Err(ReadError::Stopped(Trouble::TooDeep));
        }
        let pos = self.pos();
        self.skip()?;
        Ok(Some(Opened {
            pos,
            levels: levels - 1,
        }))
    }

    /// Takes a sign, and answers its place.
    #[tactic(auto, using(crate::proofs::CursorLaws::sign_taken, crate::proofs::CursorLaws::sign_missed))]
    pub fn take_sign(&mut self, sign: Punctuator) -> Result<Pos, ReadError>
        ensures { Leaves result self.new (read_sign sign self.old) }
    {
        if !self.is_at(sign) {
            return Err(ReadError::Stopped(Trouble::Unexpected));
        }
        let pos = self.pos();
        self.skip()?;
        Ok(pos)
    }

    /// Takes a word, and answers its place.
    #[tactic(auto, using(crate::proofs::CursorLaws::word_taken, crate::proofs::CursorLaws::word_missed))]
    pub fn take_word(&mut self, word: &str) -> Result<Pos, ReadError>
        ensures { Leaves result self.new (read_word word.now self.old) }
    {
        if !self.is_at_word(word) {
            return Err(ReadError::Stopped(Trouble::Unexpected));
        }
        let pos = self.pos();
        self.skip()?;
        Ok(pos)
    }

    /// Takes a name.
    #[tactic(auto, using(crate::proofs::CursorLaws::name_taken, crate::proofs::CursorLaws::name_missed))]
    pub fn take_name(&mut self) -> Result<Positioned<Name>, ReadError>
        ensures { Leaves result self.new (read_name self.old) }
    {
        if !self.is_at_name() {
            return Err(ReadError::Stopped(Trouble::Unexpected));
        }
        let Token { lexeme, pos } = self.pop()?;
        let Lexeme::Name(text) = lexeme else {
            unreachable!()
        };
        Ok(Positioned {
            pos,
            node: Name::from_text(text),
        })
    }

    /// Takes a name other than `on`.
    #[tactic(auto, using(crate::proofs::CursorLaws::fragment_name_taken, crate::proofs::CursorLaws::fragment_name_missed))]
    pub fn take_fragment_name(&mut self) -> Result<Positioned<Name>, ReadError>
        ensures { Leaves result self.new (read_fragment_name self.old) }
    {
        if !self.is_at_fragment_name() {
            return Err(ReadError::Stopped(Trouble::Unexpected));
        }
        self.take_name()
    }

    /// Takes a value of one token, but no variable.
    #[tactic(auto, using(crate::proofs::CursorLaws::scalar_missed, crate::proofs::CursorLaws::scalar_sure))]
    pub fn take_scalar(&mut self) -> Result<DocValue, ReadError>
        ensures { Leaves result self.new (read_scalar self.old) }
    {
        if !self.is_at_scalar() {
            return Err(ReadError::Stopped(Trouble::Unexpected));
        }
        let Token { lexeme, pos: _ } = self.pop()?;
        match scalar_of(lexeme) {
            Some(value) => Ok(value),
            None => unreachable!(),
        }
    }

    /// Takes the word of a kind of operation, and answers its place and the kind.
    #[tactic(auto, using(crate::proofs::CursorLaws::operation_taken, crate::proofs::CursorLaws::operation_missed))]
    pub fn take_operation(&mut self) -> Result<(Pos, OperationType), ReadError>
        ensures { Leaves result self.new (read_operation self.old) }
    {
        match self.next_operation() {
            Some(kind) => {
                let pos = self.pos();
                self.skip()?;
                Ok((pos, kind))
            }
            None => Err(ReadError::Stopped(Trouble::Unexpected)),
        }
    }

    /// Takes the end of the text.
    #[tactic(auto, using(crate::proofs::CursorLaws::end_taken, crate::proofs::CursorLaws::end_missed))]
    pub fn take_end(&mut self) -> Result<Pos, ReadError>
        ensures { Leaves result self.new (read_end self.old) }
    {
        if !self.is_at_end() {
            return Err(ReadError::Stopped(Trouble::Unexpected));
        }
        let pos = self.pos();
        self.skip()?;
        Ok(pos)
    }
}

/// Whether a token says this sign.
fn says(lexeme: &Lexeme, sign: Punctuator) -> bool
    ensures { result ≡ says_sign sign lexeme.now }
{
    match lexeme {
        Lexeme::Punctuator(found) => *found == sign,
        _ => false,
    }
}

/// Whether a token is this word.
fn says_this(lexeme: &Lexeme, word: &str) -> bool
    ensures { result ≡ says_word word.now lexeme.now }
{
    match lexeme {
        Lexeme::Name(text) => text.as_str() == word,
        _ => false,
    }
}

/// Whether a token is a name.
fn says_name(lexeme: &Lexeme) -> bool
    ensures { result ≡ reading.says_name lexeme.now }
{
    matches!(lexeme, Lexeme::Name(_))
}

/// Whether a token is a number, a string or a name.
fn says_scalar(lexeme: &Lexeme) -> bool
    ensures { result ≡ reading.says_scalar lexeme.now }
{
    matches!(
        lexeme,
        Lexeme::Number(_) | Lexeme::String(_) | Lexeme::Name(_)
    )
}

/// Whether a token is the end.
fn says_end(lexeme: &Lexeme) -> bool
    ensures { result ≡ reading.says_end lexeme.now }
{
    matches!(lexeme, Lexeme::End)
}

/// The value that a token is.
fn scalar_of(lexeme: Lexeme) -> Option<DocValue>
    ensures { result ≡ scalar_in lexeme }
{
    match lexeme {
        Lexeme::Number(number) => Some(DocValue::Number(number)),
        Lexeme::String(text) => Some(DocValue::String(text)),
        Lexeme::Name(text) => Some(value_named(text)),
        _ => None,
    }
}

/// The value that a name is.
fn value_named(text: Text) -> DocValue
    ensures { result ≡ named_value text }
{
    if text.as_str() == "true" {
        DocValue::Boolean(true)
    } else if text.as_str() == "false" {
        DocValue::Boolean(false)
    } else if text.as_str() == "null" {
        DocValue::Null
    } else {
        DocValue::Enum(Name::from_text(text))
    }
}

/// The kind of operation that a token is the word of.
fn operation_said(lexeme: &Lexeme) -> Option<OperationType>
    ensures { result ≡ reading.operation_said lexeme.now }
{
    match lexeme {
        Lexeme::Name(text) => operation_named(text.as_str()),
        _ => None,
    }
}

/// The kind of operation of this name.
fn operation_named(word: &str) -> Option<OperationType>
    ensures { result ≡ reading.operation_named word.now }
{
    if word == "query" {
        Some(OperationType::Query)
    } else if word == "mutation" {
        Some(OperationType::Mutation)
    } else if word == "subscription" {
        Some(OperationType::Subscription)
    } else {
        None
    }
}
