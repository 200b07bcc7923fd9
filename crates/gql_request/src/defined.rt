//! The definitions of an operation's variables, found by their names.
ghost use Rattle.std.specs.Prelude.{◌≡◌, IfOk, OnOk};
ghost use Rattle.std.specs.Option.{option_copied};
ghost use Rattle.gql_request.specs.Defined.{first_definition, definition_places, with_place};

use gql_base::{Copied, Made, Pairs};
use gql_doc::{Positioned, VariableDefinition};
use std::alloc::Global;
use std::marker::Model;

/// The definitions of an operation's variables, beside the place of the first of each name.
/// Contracts see the list of the definitions.
#[derive(Drop)]
pub struct Defined<'a> {
    definitions: &'a [Positioned<VariableDefinition>],
    places: &'a Pairs<usize>,
}

impl<'a> Model for Defined<'a> {
    ghost use Rattle.std.specs.Prelude.{List, ◌≡◌};
    ghost use Rattle.gql_doc.specs.declared.document.Positioned.{Positioned as Placed};
    ghost use Rattle.gql_doc.specs.declared.document.VariableDefinition.{VariableDefinition as Defining};
    ghost use Rattle.std.specs.Coded.{coded_list};
    ghost use Rattle.gql_doc.specs.contracts.document.Positioned as positioned_contract;
    ghost use Rattle.gql_doc.specs.contracts.document.VariableDefinition as definition_contract;
    ghost use Rattle.gql_request.specs.Defined.{definition_places};

    ghost Value = { List (Placed Defining) };

    ghost coded = { coded_list (positioned_contract.the_row definition_contract.the_row).coded };

    ghost view = { λ defined. defined.definitions.now };

    ghost invariant = { λ defined. defined.places.now ≡ definition_places defined.definitions.now };
}

impl<'a> Defined<'a> {
    /// Definitions beside their places.
    pub fn new(
        definitions: &'a [Positioned<VariableDefinition>],
        places: &'a Pairs<usize>,
    ) -> Defined<'a>
        requires { places.now ≡ definition_places definitions.now }
        ensures { result ≡ definitions.now }
    {
        Defined {
            definitions,
            places,
        }
    }

    /// The first definition of a variable.
    pub fn get(&self, name: &str) -> Option<&'a Positioned<VariableDefinition>>
        ensures { option_copied result ≡ first_definition name.now self.now }
    {
        match self.places.get(name) {
            None => None,
            Some(place) => self.definitions.get(*place),
        }
    }
}

/// Under each name the place of its first definition.
pub fn definition_places(
    alloc: Global,
    definitions: &[Positioned<VariableDefinition>],
) -> Made<Pairs<usize>>
    ensures { IfOk result (λ places. places ≡ definition_places definitions.now) }
{
    let mut places = Pairs::with_capacity(alloc, definitions.len())?;
    for place in 0..definitions.len() {
        add_place(alloc, &definitions[place], place, &mut places)?;
    }
    Ok(places)
}

/// Keeps the place of a definition, unless one of its name is kept.
fn add_place(
    alloc: Global,
    definition: &Positioned<VariableDefinition>,
    place: usize,
    places: &mut Pairs<usize>,
) -> Made<()>
    ensures { OnOk result (places.new ≡ with_place places.old definition.now place) }
{
    let name = &definition.node.name.node;
    if places.get(name.as_str()).is_none() {
        places.add_fresh(name.try_clone(alloc)?, place)
    } else {
        Ok(())
    }
}
