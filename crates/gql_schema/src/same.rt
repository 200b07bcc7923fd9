ghost use Rattle.std.specs.Prelude.{◌≡◌, ◌↔◌, IsTrue};

use crate::by_name::ByName;
use crate::named::Named;
use gql_base::{Items, Name, Text, TypeRef, Value};

/// What can be compared, exactly.
pub trait Same {
    /// True exactly where both are equal.
    fn same(&self, other: &Self) -> bool
        ensures { IsTrue result ↔ (self.now ≡ other.now) };
}

impl Same for Name {
    fn same(&self, other: &Name) -> bool {
        self == other
    }
}

impl Same for Text {
    fn same(&self, other: &Text) -> bool {
        self == other
    }
}

impl Same for TypeRef {
    fn same(&self, other: &TypeRef) -> bool {
        *self == *other
    }
}

impl Same for Value {
    fn same(&self, other: &Value) -> bool {
        *self == *other
    }
}

impl<T: Same> Same for Option<T> {
    fn same(&self, other: &Option<T>) -> bool {
        match (self, other) {
            (None, None) => true,
            (Some(one), Some(two)) => one.same(two),
            _ => false,
        }
    }
}

impl<T: Same> Same for Items<T> {
    fn same(&self, other: &Items<T>) -> bool {
        let (one, two) = (self.as_slice(), other.as_slice());
        if one.len() != two.len() {
            return false;
        }
        for place in 0..one.len() {
            if !one[place].same(&two[place]) {
                return false;
            }
        }
        true
    }
}

impl<T: Same + Named> Same for ByName<T> {
    fn same(&self, other: &ByName<T>) -> bool {
        if self.len() != other.len() {
            return false;
        }
        for place in 0..self.len() {
            let (name, item) = self.at(place);
            let (other_name, other_item) = other.at(place);
            if name != other_name || !item.same(other_item) {
                return false;
            }
        }
        true
    }
}
