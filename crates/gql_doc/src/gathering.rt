//! What the definitions of a document come to: the document, or the rule that it breaks.
ghost use Rattle.std.specs.Prelude.{◌≡◌, OnOk};
ghost use Rattle.gql_doc.specs.Gathered.{nothing_gathered, gathered, with_operation};
ghost use Rattle.gql_doc.specs.Gathered.{with_anonymous, with_fragment, wrong_of, outcome_of};
ghost use Rattle.gql_doc.specs.Gathered.{document_in};

use crate::document::{
    DocumentOperations, ExecutableDocument, FragmentDefinition, OperationDefinition, Positioned,
};
use crate::draft::{Draft, add_named};
use crate::fault::{ParseFault, ParseKind};
use gql_base::{Made, Name, Pairs, Pos};
use std::alloc::Global;

/// A definition as it was read, with the place of its first token.
#[derive(Drop)]
pub enum DefinitionDraft {
    Operation {
        pos: Pos,
        name: Option<Positioned<Name>>,
        operation: Draft<OperationDefinition>,
    },
    Fragment {
        pos: Pos,
        name: Positioned<Name>,
        fragment: Draft<FragmentDefinition>,
    },
}

/// The definitions that were read so far. `first` is the place of the first of them; `any` tells
/// whether there is an operation, and `several` whether there are more than one. `anonymous` is the
/// first operation without a name.
#[derive(Drop)]
pub struct Gathering {
    pub first: Option<Pos>,
    pub any: bool,
    pub several: bool,
    pub doubled: Option<Pos>,
    pub anonymous: Option<Positioned<OperationDefinition>>,
    pub named: Pairs<Positioned<OperationDefinition>>,
    pub fragments: Pairs<Positioned<FragmentDefinition>>,
}

impl Gathering {
    /// No definition.
    pub fn new(alloc: Global) -> Gathering
        ensures { result ≡ nothing_gathered }
    {
        Gathering {
            first: None,
            any: false,
            several: false,
            doubled: None,
            anonymous: None,
            named: Pairs::new(alloc),
            fragments: Pairs::new(alloc),
        }
    }

    /// Adds a definition.
    pub fn add(&mut self, definition: DefinitionDraft) -> Made<()>
        ensures { OnOk result (self.new ≡ gathered self.old definition) }
    {
        match definition {
            DefinitionDraft::Operation {
                pos,
                name,
                operation,
            } => self.add_operation(pos, name, operation),
            DefinitionDraft::Fragment {
                pos,
                name,
                fragment,
            } => self.add_fragment(pos, name, fragment),
        }
    }

    /// Adds an operation.
    fn add_operation(
        &mut self,
        pos: Pos,
        name: Option<Positioned<Name>>,
        operation: Draft<OperationDefinition>,
    ) -> Made<()>
        ensures { OnOk result (self.new ≡ with_operation self.old pos name operation) }
    {
        self.first = self.first.or(Some(pos));
        self.several = self.any;
        self.any = true;
        let Draft { part, doubled } = operation;
        let part = Positioned { pos, node: part };
        match name {
            Some(name) => {
                let draft = Draft { part, doubled };
                add_named(&mut self.named, &mut self.doubled, name.node, pos, draft)
            }
            None => {
                self.add_anonymous(part, doubled);
                Ok(())
            }
        }
    }

    /// Adds an operation without a name. The first one counts.
    fn add_anonymous(&mut self, operation: Positioned<OperationDefinition>, doubled: Option<Pos>)
        ensures { self.new ≡ with_anonymous self.old operation doubled }
    {
        self.doubled = self.doubled.or(doubled);
        if self.anonymous.is_none() {
            self.anonymous = Some(operation);
        }
    }

    /// Adds a fragment.
    fn add_fragment(
        &mut self,
        pos: Pos,
        name: Positioned<Name>,
        fragment: Draft<FragmentDefinition>,
    ) -> Made<()>
        ensures { OnOk result (self.new ≡ with_fragment self.old pos name fragment) }
    {
        self.first = self.first.or(Some(pos));
        let Draft { part, doubled } = fragment;
        let part = Positioned { pos, node: part };
        let draft = Draft { part, doubled };
        add_named(
            &mut self.fragments,
            &mut self.doubled,
            name.node,
            pos,
            draft,
        )
    }

    /// The document, or its fault against the rules on operations and names.
    pub fn outcome(self) -> Result<ExecutableDocument, ParseFault>
        ensures { result ≡ outcome_of self }
    {
        if let Some(pos) = self.wrong_operation() {
            let kind = ParseKind::Operations;
            return Err(ParseFault { kind, pos });
        }
        if let Some(pos) = self.doubled {
            let kind = ParseKind::Doubled;
            return Err(ParseFault { kind, pos });
        }
        Ok(self.document())
    }

    /// The place of the first operation that stands wrongly: an anonymous one beside another.
    /// Without operations it is that of the first definition.
    fn wrong_operation(&self) -> Option<Pos>
        ensures { result ≡ wrong_of self.now }
    {
        if !self.any {
            return self.first;
        }
        if !self.several {
            return None;
        }
        match &self.anonymous {
            Some(operation) => Some(operation.pos),
            None => None,
        }
    }

    /// The document.
    fn document(self) -> ExecutableDocument
        ensures { result ≡ document_in self }
    {
        let Gathering {
            anonymous,
            named,
            fragments,
            ..
        } = self;
        let operations = match anonymous {
            Some(operation) => DocumentOperations::Single(operation),
            None => DocumentOperations::Multiple(named),
        };
        ExecutableDocument {
            operations,
            fragments,
        }
    }
}
