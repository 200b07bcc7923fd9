//! Copies of what an execution knows of its request, and of errors: a copy tells what its source
//! does.
ghost use Rattle.std.specs.Prelude.{◌≡◌, []};
ghost use Rattle.gql_doc.specs.Depth.{selections_of};

use gql_base::{Copied, Items, Made, Name, Number, Pairs, Pos, Text, Value, Variables};
use gql_doc::{FragmentDefinition, OperationDefinition, OperationType, Positioned, SelectionSet};
use gql_request::{IntrospectionMode, ParseRequestError, QueryEnv};
use std::alloc::Global;
use std::test::Fail;

fn at<T>(node: T) -> Positioned<T>
    ensures { result.node ≡ node }
{
    Positioned {
        pos: Pos { line: 2, column: 3 },
        node,
    }
}

fn no_selections(alloc: Global) -> Positioned<SelectionSet>
    ensures { selections_of result ≡ [] }
{
    at(SelectionSet {
        items: Items::new(alloc),
    })
}

fn mutation(alloc: Global) -> Positioned<OperationDefinition>
    ensures { selections_of result.node.selection_set ≡ [] }
{
    at(OperationDefinition {
        ty: OperationType::Mutation,
        variable_definitions: Items::new(alloc),
        directives: Items::new(alloc),
        selection_set: no_selections(alloc),
    })
}

/// The fragment F on T.
fn fragments(alloc: Global) -> Made<Pairs<Positioned<FragmentDefinition>>> {
    let name = Name::new(alloc, "F")?;
    let condition = at(Name::new(alloc, "T")?);
    let fragment = at(FragmentDefinition {
        type_condition: condition,
        directives: Items::new(alloc),
        selection_set: no_selections(alloc),
    });
    let mut fragments = Pairs::new(alloc);
    fragments.add(name, fragment)?;
    Ok(fragments)
}

/// The variable a with the number 5.
fn variables(alloc: Global) -> Made<Variables> {
    let name = Name::new(alloc, "a")?;
    let mut members = Pairs::new(alloc);
    members.add(name, Value::Number(Number::from_u64(5)))?;
    let members = Value::object(alloc, members)?;
    Ok(Variables::from_value(alloc, members))
}

#[tactic(auto, using(gql_request::proofs::NestLemmas::empty_within))]
fn environment_of(
    alloc: Global,
    variables: Variables,
    name: Text,
    fragments: Pairs<Positioned<FragmentDefinition>>,
) -> Made<QueryEnv> {
    QueryEnv::new(
        alloc,
        variables,
        Some(name),
        mutation(alloc),
        fragments,
        IntrospectionMode::Disabled,
        1,
    )
}

/// What is known of the mutation M.
fn environment(alloc: Global) -> Made<QueryEnv> {
    let name = Text::new(alloc, "M")?;
    let variables = variables(alloc)?;
    let fragments = fragments(alloc)?;
    environment_of(alloc, variables, name, fragments)
}

/// The name of the operation and the variable a.
fn environment_text(alloc: Global, env: &QueryEnv) -> Made<Text> {
    let mut out = String::new(alloc);
    if let Some(name) = &env.operation_name {
        write!(out, "{name}")?;
    }
    if let Some(Value::Number(number)) = env.variables.get("a") {
        write!(out, " a {number}")?;
    }
    Text::from_string(out)
}

fn copy_text(alloc: Global) -> Made<Text> {
    let env = environment(alloc)?;
    let copy = env.try_clone(alloc);
    drop(env);
    let copy = copy?;
    environment_text(alloc, &copy)
}

#[test]
fn environments_are_copied(rt: HostRuntime) -> Result<(), Fail> {
    assert!(rt; copy_text(rt.alloc())?.as_str() == "M a 5");
    Ok(())
}

/// Whether a copy of an error is this in words.
fn is_told(alloc: Global, error: ParseRequestError, words: &str) -> Made<bool> {
    match error.try_clone(alloc) {
        Ok(copy) => Ok(format!(in alloc; "{copy}")?.as_str() == words),
        Err(fault) => Err(fault),
    }
}

#[test]
fn errors_are_copied(rt: HostRuntime) -> Result<(), Fail> {
    let invalid = ParseRequestError::InvalidRequest("expected an object");
    let words = "Invalid request: expected an object";
    assert!(rt; is_told(rt.alloc(), invalid, words)?);
    let batch = ParseRequestError::UnsupportedBatch;
    let words = "Batch requests are not supported";
    assert!(rt; is_told(rt.alloc(), batch, words)?);
    Ok(())
}
