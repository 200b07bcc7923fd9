ghost use Rattle.std.specs.Prelude.{◌≡◌, IfOk, None};
ghost use Rattle.std.specs.Option.{option_copied};
ghost use Rattle.std.proofs.Props.{props};
ghost use Rattle.gql_doc.specs.Depth.{deep_from};
ghost use Rattle.gql_request.specs.Defined.{first_definition, definition_places};

use crate::defined::{Defined, definition_places};
use gql_base::{Copied, Made, Pairs, Text, Variables};
use gql_doc::{FragmentDefinition, OperationDefinition, Positioned, VariableDefinition};
use std::alloc::Global;

/// How far a request may ask for the schema itself.
#[derive(Clone, Copy, PartialEq, Eq, Debug)]
pub enum IntrospectionMode {
    /// Fields of the schema alone have values.
    IntrospectionOnly,
    /// All fields have values.
    Enabled,
    /// Fields of the schema have no values.
    Disabled,
}

impl Default for IntrospectionMode {
    ghost use Rattle.std.specs.Prelude.{◌≡◌};
    ghost use Rattle.gql_request.specs.declared.query_env.IntrospectionMode.TheVariants.{Enabled};

    ghost is_default = { λ mode. mode ≡ Enabled };

    fn default() -> IntrospectionMode {
        IntrospectionMode::Enabled
    }
}

/// What an execution knows of its request: the chosen operation, whose definitions of variables are
/// found by name, the fragments that it may spread, and its variables.
#[derive(Debug, Drop)]
pub struct QueryEnv {
    pub variables: Variables,
    pub operation_name: Option<Text>,
    pub operation: Positioned<OperationDefinition>,
    pub fragments: Pairs<Positioned<FragmentDefinition>>,
    pub introspection_mode: IntrospectionMode,
    /// So many levels of sets suffice for the operation and what it spreads.
    levels: usize,
    /// The place of the first definition of each variable.
    defined: Pairs<usize>,
    pub ghost nests: { deep_from fragments levels operation.node.selection_set ≡ None } by { Prim.hlevel props },
    pub ghost indexed: { defined ≡ definition_places operation.node.variable_definitions } by { Prim.hlevel props },
}

impl QueryEnv {
    ghost use Rattle.gql_request.specs.QueryEnv.{levels_of, NestsIn};

    /// What an execution knows, where the sets of the operation and of what it spreads nest within
    /// these levels.
    pub fn new(
        alloc: Global,
        variables: Variables,
        operation_name: Option<Text>,
        operation: Positioned<OperationDefinition>,
        fragments: Pairs<Positioned<FragmentDefinition>>,
        introspection_mode: IntrospectionMode,
        levels: usize,
    ) -> Made<QueryEnv>
        requires { deep_from fragments levels operation.node.selection_set ≡ None }
        ensures variables { IfOk result (λ env. env.variables ≡ variables) }
        ensures operation_name { IfOk result (λ env. env.operation_name ≡ operation_name) }
        ensures operation { IfOk result (λ env. env.operation ≡ operation) }
        ensures fragments { IfOk result (λ env. env.fragments ≡ fragments) }
        ensures introspection_mode { IfOk result
            (λ env. env.introspection_mode ≡ introspection_mode) }
        ensures levels { IfOk result (λ env. levels_of env ≡ levels) }
    {
        let defined = definition_places(alloc, operation.node.variable_definitions.as_slice())?;
        Ok(QueryEnv {
            variables,
            operation_name,
            operation,
            fragments,
            introspection_mode,
            levels,
            defined,
        })
    }

    /// The first definition of a variable.
    pub fn definition(&self, name: &str) -> Option<&Positioned<VariableDefinition>>
        ensures { option_copied result
            ≡ first_definition name.now self.now.operation.node.variable_definitions }
    {
        let definitions = self.operation.node.variable_definitions.as_slice();
        let defined = Defined::new(definitions, &self.defined);
        defined.get(name)
    }

    /// A copy of the places of the definitions.
    fn places(&self, alloc: Global) -> Made<Pairs<usize>>
        ensures { IfOk result (λ places. places ≡ self.now.defined) }
    {
        definition_places(alloc, self.operation.node.variable_definitions.as_slice())
    }

    /// How many levels of sets suffice for the operation and what it spreads.
    pub fn levels(&self) -> usize
        ensures levels { result ≡ levels_of self.now }
        ensures nests { NestsIn self.now self.now.operation.node.selection_set }
    {
        self.levels
    }
}

impl Copied for QueryEnv {
    fn try_clone(&self, alloc: Global) -> Made<QueryEnv> {
        Ok(QueryEnv {
            variables: self.variables.try_clone(alloc)?,
            operation_name: self.operation_name.try_clone(alloc)?,
            operation: self.operation.try_clone(alloc)?,
            fragments: self.fragments.try_clone(alloc)?,
            introspection_mode: self.introspection_mode,
            levels: self.levels,
            defined: self.places(alloc)?,
        })
    }
}

impl Copied for IntrospectionMode {
    fn try_clone(&self, _alloc: Global) -> Made<IntrospectionMode> {
        Ok(*self)
    }
}
