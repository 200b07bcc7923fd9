//! Copies of documents and of their parts, each equal to its source. Their lists take their room at
//! once.
ghost use Rattle.std.specs.Prelude.{◌≡◌, IfOk};

use crate::document::{
    Argument, Directive, DocValue, DocumentOperations, ExecutableDocument, Field,
    FragmentDefinition, FragmentSpread, InlineFragment, OperationDefinition, OperationType,
    Positioned, Selection, SelectionSet, VariableDefinition,
};
use crate::fault::{ParseFault, ParseKind};
use gql_base::{Copied, Items, Made, Pairs};
use std::alloc::Global;

impl Copied for ParseKind {
    fn try_clone(&self, _alloc: Global) -> Made<ParseKind> {
        Ok(*self)
    }
}

impl Copied for ParseFault {
    fn try_clone(&self, _alloc: Global) -> Made<ParseFault> {
        Ok(*self)
    }
}

impl Copied for OperationType {
    fn try_clone(&self, _alloc: Global) -> Made<OperationType> {
        Ok(*self)
    }
}

impl<T: Copied + Drop> Copied for Positioned<T> {
    fn try_clone(&self, alloc: Global) -> Made<Positioned<T>> {
        let node = self.node.try_clone(alloc)?;
        Ok(Positioned {
            pos: self.pos,
            node,
        })
    }
}

impl Copied for ExecutableDocument {
    fn try_clone(&self, alloc: Global) -> Made<ExecutableDocument> {
        let operations = self.operations.try_clone(alloc)?;
        let fragments = self.fragments.try_clone(alloc)?;
        Ok(ExecutableDocument {
            operations,
            fragments,
        })
    }
}

impl Copied for DocumentOperations {
    fn try_clone(&self, alloc: Global) -> Made<DocumentOperations> {
        match self {
            DocumentOperations::Single(operation) => {
                Ok(DocumentOperations::Single(operation.try_clone(alloc)?))
            }
            DocumentOperations::Multiple(operations) => {
                Ok(DocumentOperations::Multiple(operations.try_clone(alloc)?))
            }
        }
    }
}

impl Copied for OperationDefinition {
    fn try_clone(&self, alloc: Global) -> Made<OperationDefinition> {
        let variable_definitions = self.variable_definitions.try_clone(alloc)?;
        let directives = self.directives.try_clone(alloc)?;
        let selection_set = self.selection_set.try_clone(alloc)?;
        Ok(OperationDefinition {
            ty: self.ty,
            variable_definitions,
            directives,
            selection_set,
        })
    }
}

impl Copied for VariableDefinition {
    fn try_clone(&self, alloc: Global) -> Made<VariableDefinition> {
        let name = self.name.try_clone(alloc)?;
        let var_type = self.var_type.try_clone(alloc)?;
        let directives = self.directives.try_clone(alloc)?;
        let default = self.default.try_clone(alloc)?;
        Ok(VariableDefinition {
            name,
            var_type,
            directives,
            default,
        })
    }
}

impl Copied for FragmentDefinition {
    fn try_clone(&self, alloc: Global) -> Made<FragmentDefinition> {
        let type_condition = self.type_condition.try_clone(alloc)?;
        let directives = self.directives.try_clone(alloc)?;
        let selection_set = self.selection_set.try_clone(alloc)?;
        Ok(FragmentDefinition {
            type_condition,
            directives,
            selection_set,
        })
    }
}

impl Copied for SelectionSet {
    fn try_clone(&self, alloc: Global) -> Made<SelectionSet> {
        let items = copy_selections(alloc, self.items.as_slice())?;
        Ok(SelectionSet { items })
    }
}

impl Copied for Selection {
    fn try_clone(&self, alloc: Global) -> Made<Selection> {
        copy_selection(alloc, self)
    }
}

impl Copied for Field {
    fn try_clone(&self, alloc: Global) -> Made<Field> {
        copy_field(alloc, self)
    }
}

impl Copied for FragmentSpread {
    fn try_clone(&self, alloc: Global) -> Made<FragmentSpread> {
        let fragment_name = self.fragment_name.try_clone(alloc)?;
        let directives = self.directives.try_clone(alloc)?;
        Ok(FragmentSpread {
            fragment_name,
            directives,
        })
    }
}

impl Copied for InlineFragment {
    fn try_clone(&self, alloc: Global) -> Made<InlineFragment> {
        copy_inline(alloc, self)
    }
}

impl Copied for Directive {
    fn try_clone(&self, alloc: Global) -> Made<Directive> {
        let name = self.name.try_clone(alloc)?;
        let arguments = self.arguments.try_clone(alloc)?;
        Ok(Directive { name, arguments })
    }
}

impl Copied for Argument {
    fn try_clone(&self, alloc: Global) -> Made<Argument> {
        let name = self.name.try_clone(alloc)?;
        let value = self.value.try_clone(alloc)?;
        Ok(Argument { name, value })
    }
}

impl Copied for DocValue {
    fn try_clone(&self, alloc: Global) -> Made<DocValue> {
        copy_value(alloc, self)
    }
}

#[cycle(copy_set)]
fn copy_set(alloc: Global, set: &Positioned<SelectionSet>) -> Made<Positioned<SelectionSet>>
    ensures { IfOk result (λ copy. copy ≡ set.now) }
{
    let items = copy_selections(alloc, set.node.items.as_slice())?;
    Ok(Positioned {
        pos: set.pos,
        node: SelectionSet { items },
    })
}

#[cycle(copy_set)]
fn copy_selections(
    alloc: Global,
    selections: &[Positioned<Selection>],
) -> Made<Items<Positioned<Selection>>>
    ensures { IfOk result (λ copies. copies ≡ selections.now) }
{
    let mut copies = Items::with_capacity(alloc, selections.len())?;
    for selection in selections {
        let node = copy_selection(alloc, &selection.node)?;
        copies.push(Positioned {
            pos: selection.pos,
            node,
        })?;
    }
    Ok(copies)
}

#[cycle(copy_set)]
fn copy_selection(alloc: Global, selection: &Selection) -> Made<Selection>
    ensures { IfOk result (λ copy. copy ≡ selection.now) }
{
    match selection {
        Selection::Field(field) => {
            let node = copy_field(alloc, &field.node)?;
            Ok(Selection::Field(Positioned {
                pos: field.pos,
                node,
            }))
        }
        Selection::FragmentSpread(spread) => {
            Ok(Selection::FragmentSpread(spread.try_clone(alloc)?))
        }
        Selection::InlineFragment(inline) => {
            let node = copy_inline(alloc, &inline.node)?;
            Ok(Selection::InlineFragment(Positioned {
                pos: inline.pos,
                node,
            }))
        }
    }
}

#[cycle(copy_set)]
fn copy_field(alloc: Global, field: &Field) -> Made<Field>
    ensures { IfOk result (λ copy. copy ≡ field.now) }
{
    let alias = field.alias.try_clone(alloc)?;
    let name = field.name.try_clone(alloc)?;
    let arguments = field.arguments.try_clone(alloc)?;
    let directives = field.directives.try_clone(alloc)?;
    let selection_set = copy_set(alloc, &field.selection_set)?;
    Ok(Field {
        alias,
        name,
        arguments,
        directives,
        selection_set,
    })
}

#[cycle(copy_set)]
fn copy_inline(alloc: Global, inline: &InlineFragment) -> Made<InlineFragment>
    ensures { IfOk result (λ copy. copy ≡ inline.now) }
{
    let type_condition = inline.type_condition.try_clone(alloc)?;
    let directives = inline.directives.try_clone(alloc)?;
    let selection_set = copy_set(alloc, &inline.selection_set)?;
    Ok(InlineFragment {
        type_condition,
        directives,
        selection_set,
    })
}

#[cycle(copy_value)]
fn copy_value(alloc: Global, value: &DocValue) -> Made<DocValue>
    ensures { IfOk result (λ copy. copy ≡ value.now) }
{
    match value {
        DocValue::Variable(name) => Ok(DocValue::Variable(name.try_clone(alloc)?)),
        DocValue::Null => Ok(DocValue::Null),
        DocValue::Boolean(holds) => Ok(DocValue::Boolean(*holds)),
        DocValue::Number(number) => Ok(DocValue::Number(*number)),
        DocValue::String(text) => Ok(DocValue::String(text.try_clone(alloc)?)),
        DocValue::Enum(name) => Ok(DocValue::Enum(name.try_clone(alloc)?)),
        DocValue::List(values) => Ok(DocValue::List(copy_values(alloc, values.as_slice())?)),
        DocValue::Object(members) => Ok(DocValue::Object(copy_members(alloc, members)?)),
    }
}

#[cycle(copy_value)]
fn copy_values(alloc: Global, values: &[DocValue]) -> Made<Items<DocValue>>
    ensures { IfOk result (λ copies. copies ≡ values.now) }
{
    let mut copies = Items::with_capacity(alloc, values.len())?;
    for value in values {
        copies.push(copy_value(alloc, value)?)?;
    }
    Ok(copies)
}

#[cycle(copy_value)]
fn copy_members(alloc: Global, members: &Pairs<DocValue>) -> Made<Pairs<DocValue>>
    ensures { IfOk result (λ copies. copies ≡ members.now) }
{
    let mut values = Vec::with_capacity(alloc, members.len())?;
    for place in 0..members.len() {
        values.push(copy_value(alloc, members.at(place).1)?)?;
    }
    members.with_values(alloc, values)
}
