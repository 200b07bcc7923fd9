ghost use Rattle.std.specs.Prelude.{◌≡◌, ◌↔◌, IsTrue, IfOk, []};
ghost use Rattle.std.specs.Option.{option_copied};
ghost use Rattle.gql_base.specs.Pairs.{under};
ghost use Rattle.gql_base.specs.Kinds.{members_of_value};

use crate::common::Common;
use crate::copied::Copied;
use crate::made::Made;
use crate::pairs::Pairs;
use crate::value::Value;
use std::alloc::Global;
use std::marker::Model;

/// The values of a request's variables, by name. Contracts see the list of the pairs.
#[derive(Debug, Drop)]
pub struct Variables {
    kept: Kept,
}

/// The members of an object, which others may hold, too, or those of none.
#[derive(Debug, Drop)]
enum Kept {
    Object(Common<Pairs<Value>>),
    None(Pairs<Value>),
}

impl Model for Variables {
    ghost use Rattle.std.specs.Prelude.{List, ℕ};
    ghost use Rattle.std.specs.Coded.{coded_list, coded×, coded_ℕ};
    ghost use Rattle.gql_base.specs.declared.value.Value.{Value as OneValue};
    ghost use Rattle.gql_base.specs.contracts.value.Value.{the_row};

    ghost Value = { List (List ℕ × OneValue) };

    ghost coded = { coded_list (coded× (coded_list coded_ℕ) the_row.coded) };

    ghost use Rattle.gql_base.specs.Variables.{kept_members};

    ghost view = { λ variables. kept_members variables.kept };
}

impl Variables {
    /// The members of an object; any other value gives no variable.
    pub fn from_value(alloc: Global, value: Value) -> Variables
        ensures { result ≡ members_of_value value }
    {
        match value {
            Value::Object(members) => Variables {
                kept: Kept::Object(members),
            },
            _ => Variables {
                kept: Kept::None(Pairs::new(alloc)),
            },
        }
    }

    /// The variables as an object.
    pub fn into_value(self, alloc: Global) -> Made<Value>
        ensures { IfOk result (λ value. value ≡ Value.Object self) }
    {
        match self.kept {
            Kept::Object(members) => Ok(Value::Object(members)),
            Kept::None(members) => Value::object(alloc, members),
        }
    }

    /// The value of a variable, or none where it has none.
    pub fn get(&self, name: &str) -> Option<&Value>
        ensures { option_copied result ≡ under name.now self.now }
    {
        self.as_pairs().get(name)
    }

    /// The variables as pairs, borrowed.
    pub fn as_pairs(&self) -> &Pairs<Value>
        ensures { result.now ≡ self.now }
    {
        match &self.kept {
            Kept::Object(members) => members,
            Kept::None(members) => members,
        }
    }

    /// True exactly where there is no variable.
    pub fn is_empty(&self) -> bool
        ensures { IsTrue result ↔ (self.now ≡ []) }
    {
        self.as_pairs().is_empty()
    }
}

impl Copied for Variables {
    fn try_clone(&self, alloc: Global) -> Made<Variables> {
        let kept = match &self.kept {
            Kept::Object(members) => Kept::Object(members.try_clone(alloc)?),
            Kept::None(members) => Kept::None(members.try_clone(alloc)?),
        };
        Ok(Variables { kept })
    }
}
