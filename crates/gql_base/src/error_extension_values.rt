ghost use Rattle.std.specs.Prelude.{◌≡◌, [], ◌<◌, length, slice_get, MatchResult, OnOk, OnErr};
ghost use Rattle.std.specs.Prelude.{Some};
ghost use Rattle.std.specs.Option.{option_copied};
ghost use Rattle.gql_base.specs.ErrorExtensionValues.{IsInOrder, set_in_order, unset_in, StandsAt};
ghost use Rattle.gql_base.specs.ErrorExtensionValues.{BelongsAt};
ghost use Rattle.gql_base.specs.ErrorExtensions.{overlaid};
ghost use Rattle.gql_base.specs.Pairs.{under};

use crate::copied::Copied;
use crate::made::Made;
use crate::name::Name;
use crate::value::Value;
use std::alloc::Global;
use std::marker::Model;

/// What an error tells beside its message: values under names (GraphQL, October 2021, section
/// 7.1.2). Contracts see the list of the pairs, in byte order of the names and with no name twice.
#[derive(Debug, Drop)]
pub struct ErrorExtensionValues {
    pairs: Vec<(Name, Value)>,
}

impl Model for ErrorExtensionValues {
    ghost use Rattle.std.specs.Prelude.{List, ℕ};
    ghost use Rattle.std.specs.Coded.{coded_list, coded×, coded_ℕ};
    ghost use Rattle.gql_base.specs.declared.value.Value.{Value as OneValue};
    ghost use Rattle.gql_base.specs.contracts.value.Value.{the_row};
    ghost use Rattle.gql_base.specs.ErrorExtensionValues.{IsInOrder};

    ghost Value = { List (List ℕ × OneValue) };

    ghost coded = { coded_list (coded× (coded_list coded_ℕ) the_row.coded) };

    ghost view = { λ values. values.pairs.items };

    ghost invariant = { λ values. IsInOrder values.pairs.items };
}

impl ErrorExtensionValues {
    /// No value at all, which takes no memory.
    pub fn new(alloc: Global) -> ErrorExtensionValues
        ensures { result ≡ [] }
    {
        ErrorExtensionValues {
            pairs: Vec::new(alloc),
        }
    }

    /// Sets the value under a name, in place of one that is there. Where memory runs out the
    /// values stay as they were.
    pub fn set(&mut self, name: &str, value: Value) -> Made<()>
        ensures ok { OnOk result (self.new ≡ set_in_order self.old name.now value) }
        ensures err { OnErr result (self.new ≡ self.old) }
    {
        match place_of(&self.pairs, name) {
            Ok(place) => {
                self.pairs[place].1 = value;
                Ok(())
            }
            Err(place) => {
                let name = Name::new(*self.pairs.allocator(), name)?;
                self.pairs.insert(place, (name, value))?;
                Ok(())
            }
        }
    }

    /// Sets each of these values under its name.
    pub(crate) fn overlay(&mut self, values: ErrorExtensionValues) -> Made<()>
        ensures { OnOk result (self.new ≡ overlaid self.old values) }
    {
        let ErrorExtensionValues { pairs } = values;
        for (name, value) in pairs {
            self.set(name.as_str(), value)?;
        }
        Ok(())
    }

    /// Lets go the value under a name, if there is one.
    pub fn unset(&mut self, name: &str)
        ensures { self.new ≡ unset_in self.old name.now }
    {
        match place_of(&self.pairs, name) {
            Ok(place) => drop(self.pairs.remove(place)),
            Err(_) => {}
        }
    }

    /// The value under a name, or none where the name isn't there.
    pub fn get(&self, name: &str) -> Option<&Value>
        ensures { option_copied result ≡ under name.now self.now }
    {
        match place_of(&self.pairs, name) {
            Ok(place) => Some(&self.pairs[place].1),
            Err(_) => None,
        }
    }

    /// The number of values.
    pub fn len(&self) -> usize
        ensures length { result ≡ length self.now }
        ensures ascending { IsInOrder self.now }
    {
        self.pairs.len()
    }

    /// The pair at a place, counted from 0.
    pub fn at(&self, place: usize) -> (&str, &Value)
        requires { place < length self.now }
        ensures { slice_get self.now place ≡ Some (result.0.now, result.1.now) }
    {
        let (name, value) = &self.pairs[place];
        (name.as_str(), value)
    }
}

impl Copied for ErrorExtensionValues {
    fn try_clone(&self, alloc: Global) -> Made<ErrorExtensionValues> {
        let mut pairs = Vec::new(alloc);
        for (name, value) in &self.pairs {
            pairs.push((name.try_clone(alloc)?, value.try_clone(alloc)?))?;
        }
        Ok(ErrorExtensionValues { pairs })
    }
}

impl PartialEq for ErrorExtensionValues {
    ghost use Rattle.std.specs.Prelude.{◌≡◌, ◌↔◌, IsTrue};
    ghost use Rattle.gql_base.specs.Same.{is_same, is_same_laws};
    ghost use Rattle.gql_base.specs.contracts.error_extension_values.ErrorExtensionValues.{the_row};

    ghost eq = { is_same the_row.coded };

    ghost laws = { is_same_laws the_row.coded };

    fn eq(&self, other: &ErrorExtensionValues) -> bool
        ensures value { result ≡ is_same the_row.coded self.now other.now }
        ensures decides { IsTrue result ↔ (self.now ≡ other.now) }
    {
        self.pairs.as_slice() == other.pairs.as_slice()
    }
}

/// The place of a name among pairs in order, or else the place where it is to be inserted.
fn place_of(pairs: &[(Name, Value)], name: &str) -> Result<usize, usize>
    requires { IsInOrder pairs.now }
    ensures { MatchResult result (StandsAt name.now pairs.now) (BelongsAt name.now pairs.now) }
{
    pairs.binary_search_by(|pair| pair.0.as_str().cmp(name))
}
