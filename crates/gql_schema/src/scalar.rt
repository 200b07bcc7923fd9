ghost use Rattle.std.specs.Prelude.{◌≡◌, IfOk};

use crate::named::Named;
use crate::same::Same;
use crate::scalar_rule::ScalarRule;
use gql_base::{Copied, Made, Name};
use std::alloc::Global;

/// A scalar (GraphQL, October 2021, section 3.5): its name, and the rule by which it takes values.
#[derive(Debug, Drop)]
pub struct Scalar {
    name: Name,
    rule: ScalarRule,
}

impl Scalar {
    ghost use Rattle.gql_schema.specs.Scalar.{scalar_name, rule_of, new_scalar};

    /// A scalar that takes every value.
    pub fn new(alloc: Global, name: &str) -> Made<Scalar>
        ensures { IfOk result (λ scalar. scalar ≡ new_scalar name.now ScalarRule.Any) }
    {
        Ok(Scalar::with_name(Name::new(alloc, name)?))
    }

    /// A scalar that takes every value, which takes the name.
    pub fn with_name(name: Name) -> Scalar
        ensures { result ≡ new_scalar name ScalarRule.Any }
    {
        Scalar {
            name,
            rule: ScalarRule::Any,
        }
    }

    /// This scalar with another rule.
    pub fn rule(self, rule: ScalarRule) -> Scalar
        ensures { result ≡ new_scalar (scalar_name self) rule }
    {
        let Scalar { name, .. } = self;
        Scalar { name, rule }
    }

    /// The name of the type.
    pub fn type_name(&self) -> &str
        ensures { result.now ≡ scalar_name self.now }
    {
        self.name.as_str()
    }

    /// The rule by which the scalar takes values.
    pub fn taking(&self) -> &ScalarRule
        ensures { result.now ≡ rule_of self.now }
    {
        &self.rule
    }
}

impl Copied for Scalar {
    fn try_clone(&self, alloc: Global) -> Made<Scalar> {
        Ok(Scalar {
            name: self.name.try_clone(alloc)?,
            rule: self.rule.try_clone(alloc)?,
        })
    }
}

impl Named for Scalar {
    ghost use Rattle.gql_schema.specs.Scalar.{scalar_name};

    ghost name_of = { scalar_name };

    fn own_name(&self) -> &str {
        self.type_name()
    }
}

impl Same for Scalar {
    fn same(&self, other: &Scalar) -> bool {
        self.name == other.name && self.rule.same(&other.rule)
    }
}
