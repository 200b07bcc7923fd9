//! What `@skip` and `@include` say of a selection (sections 3.13.1 and 3.13.2).
ghost use Rattle.std.specs.Prelude.{◌≡◌};
ghost use Rattle.std.specs.Option.{option_copied};
ghost use Rattle.gql_request.specs.Defined.{definition_places};
ghost use Rattle.gql_select.specs.Constants.{default_of, resolved, variable_value};
ghost use Rattle.gql_select.specs.Kept.{allows, condition, is_kept, is_truth, others};
ghost use Rattle.gql_admit.specs.KnownVariables.{known_by};

use gql_base::{Items, Name, Pairs, Value, Variables};
use gql_doc::{Directive, DocValue, Positioned, VariableDefinition};
use gql_fields::{is_condition, is_include_directive, is_skip_directive};
use gql_request::Defined;

/// What the variables of an operation stand for.
#[derive(Drop)]
pub struct Known<'a> {
    defined: Defined<'a>,
    variables: &'a Variables,
}

impl<'a> Known<'a> {
    /// What they stand for by the operation's definitions and the request's values.
    pub fn new(
        definitions: &'a [Positioned<VariableDefinition>],
        places: &'a Pairs<usize>,
        variables: &'a Variables,
    ) -> Known<'a>
        requires { places.now ≡ definition_places definitions.now }
        ensures { known_by result ≡ variable_value variables.now definitions.now }
    {
        let defined = Defined::new(definitions, places);
        Known { defined, variables }
    }

    /// True exactly where all directives of a selection leave it in the document.
    pub fn keeps(&self, directives: &[Positioned<Directive>]) -> bool
        ensures { result ≡ is_kept (known_by self.now) directives.now }
    {
        for directive in directives {
            if !self.allows(&directive.node) {
                return false;
            }
        }
        true
    }

    fn allows(&self, directive: &Directive) -> bool
        ensures { result ≡ allows (known_by self.now) directive.now }
    {
        if is_skip_directive(directive) {
            match self.condition(directive) {
                Some(truth) => !truth,
                None => true,
            }
        } else if is_include_directive(directive) {
            match self.condition(directive) {
                Some(truth) => truth,
                None => true,
            }
        } else {
            true
        }
    }

    /// What the `if` of a directive comes to, where there is one.
    fn condition(&self, directive: &Directive) -> Option<bool>
        ensures { result ≡ condition (known_by self.now) directive.now }
    {
        match directive.get_argument("if") {
            Some(argument) => Some(self.is_true(&argument.value.node)),
            None => None,
        }
    }

    /// True exactly where a value of the document comes to true. One that is no truth value counts
    /// as false.
    fn is_true(&self, value: &DocValue) -> bool
        ensures { result ≡ is_truth (resolved (known_by self.now) value.now) }
    {
        match value {
            DocValue::Boolean(truth) => *truth,
            DocValue::Variable(name) => self.variable_is_true(name),
            DocValue::Null => false,
            DocValue::Number(_) => false,
            DocValue::String(_) => false,
            DocValue::Enum(_) => false,
            DocValue::List(_) => false,
            DocValue::Object(_) => false,
        }
    }

    fn variable_is_true(&self, name: &Name) -> bool
        ensures { result ≡ is_truth (known_by self.now name.now) }
    {
        match self.variables.get(name.as_str()) {
            Some(value) => is_true_value(value),
            None => match self.default_value(name.as_str()) {
                Some(value) => is_true_value(value),
                None => false,
            },
        }
    }

    /// The default of a variable, by the first definition of its name.
    fn default_value(&self, name: &str) -> Option<&Value>
        ensures { option_copied result ≡ default_of name.now self.now.defined }
    {
        match self.defined.get(name) {
            Some(definition) => match &definition.node.default {
                Some(default) => Some(&default.node),
                None => None,
            },
            None => None,
        }
    }
}

/// True exactly where the value is the truth value true.
fn is_true_value(value: &Value) -> bool
    ensures { result ≡ is_truth value.now }
{
    match value {
        Value::Boolean(truth) => *truth,
        _ => false,
    }
}

/// The directives that stay: `@skip` and `@include` go.
pub fn other_directives(directives: Items<Positioned<Directive>>) -> Items<Positioned<Directive>>
    ensures { result ≡ others directives }
{
    let mut list = directives.into_vec();
    list.retain(|directive| !is_condition(&directive.node));
    Items::from_vec(list)
}
