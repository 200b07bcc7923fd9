//! The definitions of variables.
ghost use Rattle.std.specs.Prelude.{◌≡◌, ◌++◌, IfOk, OnOk, None};
ghost use Rattle.std.specs.List.{flat_map};
ghost use Rattle.std.specs.Option.{option_copied};
ghost use Rattle.gql_base.specs.Pairs.{values_of};
ghost use Rattle.gql_doc.specs.Depth.{operations_in};
ghost use Rattle.gql_schema.specs.NameSet.{is_among, with_name};
ghost use Rattle.gql_schema.specs.Table.{types_of};
ghost use Rattle.gql_fields.specs.Walk.{terms_in};
ghost use Rattle.gql_rules.specs.Asked.{asking};
ghost use Rattle.gql_rules.specs.VariableDefinitions.{default_fits as is_fitting_default};
ghost use Rattle.gql_rules.specs.VariableDefinitions.{definition_name, fault_of as fault_in};
ghost use Rattle.gql_rules.specs.VariableDefinitions.{has_value as has_fitting_value};
ghost use Rattle.gql_rules.specs.VariableDefinitions.{told_of_definition};
ghost use Rattle.gql_rules.specs.VariableDefinitions.{told_of_definitions, told_of_fault};
ghost use Rattle.gql_rules.specs.VariableDefinitions.{told_of_operation, told_of_variables};

use crate::chosen_operation::chosen_in;
use crate::definition_fault::DefinitionFault;
use crate::definition_texts::wrong_definition;
use gql_base::{Copied, Items, Made, Name, Pairs, TypeRef, Value, Variables};
use gql_doc::{DocumentOperations, OperationDefinition, Positioned, VariableDefinition};
use gql_fields::{Against, Breach};
use gql_schema::{NameSet, Types, stands_at_inputs, value_fits};
use std::alloc::Global;

/// Tells of the definitions of each operation, and of the values that the chosen one is given.
pub fn tell_variables(
    operations: &DocumentOperations,
    variables: &Variables,
    name: Option<&str>,
    against: &Against<'_>,
    found: &mut Items<Breach>,
) -> Made<()>
    ensures { OnOk result (found.new ≡ found.old ++ told_of_variables (terms_in against.now)
        (asking variables.now (option_copied name.entry)) operations.now) }
{
    tell_each(operations, against, found)?;
    match chosen_in(operations, name) {
        None => Ok(()),
        Some(operation) => tell_operation(operation, Some(variables), against, found),
    }
}

/// Tells of each operation.
fn tell_each(
    operations: &DocumentOperations,
    against: &Against<'_>,
    found: &mut Items<Breach>,
) -> Made<()>
    ensures { OnOk result (found.new ≡ found.old ++ flat_map
        (told_of_operation (terms_in against.now) None) (operations_in operations.now)) }
{
    match operations {
        DocumentOperations::Single(operation) => tell_operation(operation, None, against, found),
        DocumentOperations::Multiple(operations) => tell_all(operations, against, found),
    }
}

fn tell_all(
    operations: &Pairs<Positioned<OperationDefinition>>,
    against: &Against<'_>,
    found: &mut Items<Breach>,
) -> Made<()>
    ensures { OnOk result (found.new ≡ found.old
        ++ flat_map (told_of_operation (terms_in against.now) None) (values_of operations.now)) }
{
    for place in 0..operations.len() {
        let (_, operation) = operations.at(place);
        tell_operation(operation, None, against, found)?;
    }
    Ok(())
}

/// Tells of the definitions of an operation whose kind has a root.
fn tell_operation(
    operation: &Positioned<OperationDefinition>,
    given: Option<&Variables>,
    against: &Against<'_>,
    found: &mut Items<Breach>,
) -> Made<()>
    ensures { OnOk result (found.new ≡ found.old
        ++ told_of_operation (terms_in against.now) (option_copied given.entry) operation.now) }
{
    match against.site.root(operation.node.ty) {
        None => Ok(()),
        Some(_) => {
            let definitions = operation.node.variable_definitions.as_slice();
            tell_definitions(definitions, given, against, found)
        }
    }
}

fn tell_definitions(
    definitions: &[Positioned<VariableDefinition>],
    given: Option<&Variables>,
    against: &Against<'_>,
    found: &mut Items<Breach>,
) -> Made<()>
    ensures { OnOk result (found.new ≡ found.old
        ++ told_of_definitions (terms_in against.now).table (option_copied given.entry)
        definitions.now) }
{
    let mut before = NameSet::new(against.alloc);
    for definition in definitions {
        tell_definition(definition, given, &mut before, against, found)?;
    }
    Ok(())
}

/// Tells of a definition after those of some names, and takes its name among them.
fn tell_definition(
    definition: &Positioned<VariableDefinition>,
    given: Option<&Variables>,
    before: &mut NameSet,
    against: &Against<'_>,
    found: &mut Items<Breach>,
) -> Made<()>
    ensures found { OnOk result (found.new ≡ found.old
        ++ told_of_definition (terms_in against.now).table (option_copied given.entry) before.old
        definition.now) }
    ensures before { OnOk result
        (before.new ≡ with_name before.old (definition_name definition.now)) }
{
    let seen = take_name(against.alloc, &definition.node.name.node, before)?;
    let fault = fault_of(&definition.node, seen, given, against.site.types);
    tell_fault(against.alloc, definition, fault, found)
}

/// Whether a name stands among others, which have it from then on.
fn take_name(alloc: Global, name: &Name, before: &mut NameSet) -> Made<bool>
    ensures seen { IfOk result (λ seen. seen ≡ is_among name.now before.old) }
    ensures before { OnOk result (before.new ≡ with_name before.old name.now) }
{
    if before.has(name.as_str()) {
        Ok(true)
    } else {
        before.add_fresh(name.try_clone(alloc)?)?;
        Ok(false)
    }
}

fn tell_fault(
    alloc: Global,
    definition: &Positioned<VariableDefinition>,
    fault: Option<DefinitionFault>,
    found: &mut Items<Breach>,
) -> Made<()>
    ensures { OnOk result (found.new ≡ found.old ++ told_of_fault definition.now fault) }
{
    match fault {
        None => Ok(()),
        Some(fault) => {
            let name = definition.node.name.node.as_str();
            found.push(wrong_definition(alloc, definition.pos, name, fault)?)
        }
    }
}

/// What is wrong in a definition, where its name stands before or not.
fn fault_of(
    definition: &VariableDefinition,
    seen: bool,
    given: Option<&Variables>,
    types: &Types,
) -> Option<DefinitionFault>
    ensures { result
        ≡ fault_in (types_of types.now) (option_copied given.entry) seen definition.now }
{
    if seen {
        Some(DefinitionFault::Twice)
    } else if !stands_at_inputs(types, &definition.var_type.node) {
        Some(DefinitionFault::NoInput)
    } else if !default_fits(&definition.default, &definition.var_type.node, types) {
        Some(DefinitionFault::Default)
    } else if !has_value(definition, given, types) {
        Some(DefinitionFault::NoValue)
    } else {
        None
    }
}

fn default_fits(default: &Option<Positioned<Value>>, ty: &TypeRef, types: &Types) -> bool
    ensures { result ≡ is_fitting_default (types_of types.now) ty.now default.now }
{
    match default {
        None => true,
        Some(default) => value_fits(&default.node, ty, types),
    }
}

/// Whether a variable has a fitting value, where values are given.
fn has_value(definition: &VariableDefinition, given: Option<&Variables>, types: &Types) -> bool
    ensures { result
        ≡ has_fitting_value (types_of types.now) definition.now (option_copied given.entry) }
{
    match given {
        None => true,
        Some(variables) => match variables.get(definition.name.node.as_str()) {
            None => definition.var_type.node.is_nullable() || definition.default.is_some(),
            Some(value) => value_fits(value, &definition.var_type.node, types),
        },
    }
}
