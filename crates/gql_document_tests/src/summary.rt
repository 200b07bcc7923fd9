//! A document in short, as tests compare it.
use gql_base::{Items, Made, Number, Pos, Text, Value};
use gql_doc::{
    Argument, Directive, DocValue, DocumentOperations, ExecutableDocument, FragmentDefinition,
    OperationDefinition, OperationType, Positioned, Selection, SelectionSet, VariableDefinition,
};
use std::alloc::Global;

/// What is written, and whether places are written too.
#[derive(Drop)]
struct ShortForm {
    alloc: Global,
    out: String,
    places: bool,
}

/// A document in short: a list between brackets, an object between braces, and everything in the
/// order of the document. With places, each part that has one begins with `^` and its column.
pub fn summary(alloc: Global, document: &ExecutableDocument, places: bool) -> Made<String> {
    let mut summary = ShortForm::new(alloc, places);
    summary.document(document)?;
    Ok(summary.into_text())
}

/// A set in short, without places.
pub fn set_summary(alloc: Global, set: &SelectionSet) -> Made<String> {
    let mut summary = ShortForm::new(alloc, false);
    summary.selections(set)?;
    Ok(summary.into_text())
}

impl ShortForm {
    fn new(alloc: Global, places: bool) -> ShortForm {
        ShortForm {
            alloc,
            out: String::new(alloc),
            places,
        }
    }

    fn into_text(self) -> String {
        let ShortForm {
            alloc: _,
            out,
            places: _,
        } = self;
        out
    }

    fn text(&mut self, text: &str) -> Made<()> {
        self.out.push_str(text)
    }

    fn place(&mut self, pos: Pos) -> Made<()> {
        if self.places {
            let column = pos.column;
            write!(self.out, "^{column}")?;
        }
        Ok(())
    }

    fn document(&mut self, document: &ExecutableDocument) -> Made<()> {
        match &document.operations {
            DocumentOperations::Single(operation) => {
                self.text("single ")?;
                self.operation("", operation)?;
            }
            DocumentOperations::Multiple(operations) => {
                for place in 0..operations.len() {
                    let (name, operation) = operations.at(place);
                    self.operation(name, operation)?;
                    self.text(" ")?;
                }
            }
        }
        for place in 0..document.fragments.len() {
            let (name, fragment) = document.fragments.at(place);
            self.text(" ")?;
            self.fragment(name, fragment)?;
        }
        Ok(())
    }

    fn operation(&mut self, name: &str, operation: &Positioned<OperationDefinition>) -> Made<()> {
        self.place(operation.pos)?;
        self.text(match operation.node.ty {
            OperationType::Query => "query ",
            OperationType::Mutation => "mutation ",
            OperationType::Subscription => "subscription ",
        })?;
        self.text(name)?;
        for variable in operation.node.variable_definitions.as_slice() {
            self.variable(variable)?;
        }
        self.directives(&operation.node.directives)?;
        self.set(&operation.node.selection_set)
    }

    fn variable(&mut self, variable: &Positioned<VariableDefinition>) -> Made<()> {
        self.place(variable.pos)?;
        self.text("($")?;
        self.place(variable.node.name.pos)?;
        self.text(variable.node.name.node.as_str())?;
        self.text(":")?;
        self.place(variable.node.var_type.pos)?;
        let ty = variable.node.var_type.node.text(self.alloc)?;
        self.text(ty.as_str())?;
        if let Some(default) = &variable.node.default {
            self.text("=")?;
            self.place(default.pos)?;
            self.constant(&default.node)?;
        }
        self.directives(&variable.node.directives)?;
        self.text(")")
    }

    fn fragment(&mut self, name: &str, fragment: &Positioned<FragmentDefinition>) -> Made<()> {
        self.place(fragment.pos)?;
        self.text("fragment ")?;
        self.text(name)?;
        self.text(" on ")?;
        self.place(fragment.node.type_condition.pos)?;
        self.text(fragment.node.type_condition.node.as_str())?;
        self.directives(&fragment.node.directives)?;
        self.set(&fragment.node.selection_set)
    }

    #[cycle(set)]
    fn set(&mut self, set: &Positioned<SelectionSet>) -> Made<()> {
        self.place(set.pos)?;
        if set.node.items.is_empty() {
            return Ok(());
        }
        self.selections(&set.node)
    }

    #[cycle(set)]
    fn selections(&mut self, set: &SelectionSet) -> Made<()> {
        self.text("{")?;
        for selection in set.items.as_slice() {
            self.selection(selection)?;
            self.text(" ")?;
        }
        self.text("}")
    }

    #[cycle(set)]
    fn selection(&mut self, selection: &Positioned<Selection>) -> Made<()> {
        self.place(selection.pos)?;
        match &selection.node {
            Selection::Field(field) => {
                self.place(field.pos)?;
                if let Some(alias) = &field.node.alias {
                    self.place(alias.pos)?;
                    self.text(alias.node.as_str())?;
                    self.text(":")?;
                }
                self.place(field.node.name.pos)?;
                self.text(field.node.name.node.as_str())?;
                self.arguments(&field.node.arguments)?;
                self.directives(&field.node.directives)?;
                self.set(&field.node.selection_set)
            }
            Selection::FragmentSpread(spread) => {
                self.place(spread.pos)?;
                self.text("...")?;
                self.place(spread.node.fragment_name.pos)?;
                self.text(spread.node.fragment_name.node.as_str())?;
                self.directives(&spread.node.directives)
            }
            Selection::InlineFragment(inline) => {
                self.place(inline.pos)?;
                self.text("...")?;
                if let Some(condition) = &inline.node.type_condition {
                    self.text("on ")?;
                    self.place(condition.pos)?;
                    self.text(condition.node.as_str())?;
                }
                self.directives(&inline.node.directives)?;
                self.set(&inline.node.selection_set)
            }
        }
    }

    fn directives(&mut self, directives: &Items<Positioned<Directive>>) -> Made<()> {
        for directive in directives.as_slice() {
            self.place(directive.pos)?;
            self.text("@")?;
            self.place(directive.node.name.pos)?;
            self.text(directive.node.name.node.as_str())?;
            self.arguments(&directive.node.arguments)?;
        }
        Ok(())
    }

    fn arguments(&mut self, arguments: &Items<Argument>) -> Made<()> {
        for argument in arguments.as_slice() {
            self.text("(")?;
            self.place(argument.name.pos)?;
            self.text(argument.name.node.as_str())?;
            self.text(":")?;
            self.place(argument.value.pos)?;
            self.value(&argument.value.node)?;
            self.text(")")?;
        }
        Ok(())
    }

    fn number(&mut self, number: Number) -> Made<()> {
        match (number.as_u64(), number.as_i64()) {
            (Some(value), _) => write!(self.out, "{value}"),
            (None, Some(value)) => write!(self.out, "{value}"),
            (None, None) => Ok(()),
        }?;
        Ok(())
    }

    fn string(&mut self, text: &Text) -> Made<()> {
        self.text("\"")?;
        self.text(text.as_str())?;
        self.text("\"")
    }

    fn truth(&mut self, holds: bool) -> Made<()> {
        self.text(if holds { "true" } else { "false" })
    }

    fn value(&mut self, value: &DocValue) -> Made<()> {
        match value {
            DocValue::Variable(name) => {
                self.text("$")?;
                self.text(name.as_str())
            }
            DocValue::Null => self.text("null"),
            DocValue::Boolean(holds) => self.truth(*holds),
            DocValue::Number(number) => self.number(*number),
            DocValue::String(text) => self.string(text),
            DocValue::Enum(name) => self.text(name.as_str()),
            DocValue::List(values) => {
                self.text("[")?;
                for value in values.as_slice() {
                    self.value(value)?;
                    self.text(" ")?;
                }
                self.text("]")
            }
            DocValue::Object(members) => {
                self.text("{")?;
                for place in 0..members.len() {
                    let (name, value) = members.at(place);
                    self.text(name)?;
                    self.text(":")?;
                    self.value(value)?;
                    self.text(" ")?;
                }
                self.text("}")
            }
        }
    }

    fn constant(&mut self, value: &Value) -> Made<()> {
        match value {
            Value::Null => self.text("null"),
            Value::Boolean(holds) => self.truth(*holds),
            Value::Number(number) => self.number(*number),
            Value::String(text) => self.string(text),
            Value::Enum(name) => self.text(name.as_str()),
            Value::List(values) => {
                self.text("[")?;
                for value in values.as_slice() {
                    self.constant(value)?;
                    self.text(" ")?;
                }
                self.text("]")
            }
            Value::Object(members) => {
                self.text("{")?;
                for place in 0..members.len() {
                    let (name, value) = members.at(place);
                    self.text(name)?;
                    self.text(":")?;
                    self.constant(value)?;
                    self.text(" ")?;
                }
                self.text("}")
            }
        }
    }
}
