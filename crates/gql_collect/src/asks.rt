//! What a field asks of its object: nothing, its name, or ResolveFieldValue (GraphQL, October 2021,
//! section 6.4.2).
ghost use Rattle.std.specs.Prelude.{◌≡◌, true};

use gql_base::{Pairs, TypeRef, Value};

/// What a field asks on an object, whatever the object's value: the object's name, nothing, or a
/// call of a resolver.
#[derive(Drop)]
pub enum Asks {
    Typename,
    Nothing,
    Call {
        resolver: u32,
        ty: TypeRef,
        arguments: Pairs<Value>,
    },
}

impl Asks {
    ghost use Rattle.gql_collect.specs.Asks.{arguments_in, is_call, resolver_in, type_in};

    /// Whether an answer is asked.
    pub fn is_call(&self) -> bool
        ensures { result ≡ is_call self.now }
    {
        match self {
            Asks::Typename => false,
            Asks::Nothing => false,
            Asks::Call {
                resolver: _,
                ty: _,
                arguments: _,
            } => true,
        }
    }

    /// The number of the resolver.
    pub fn resolver(&self) -> u32
        requires { is_call self.now ≡ true }
        ensures { result ≡ resolver_in self.now }
    {
        match self {
            Asks::Typename => unreachable!(),
            Asks::Nothing => unreachable!(),
            Asks::Call {
                resolver,
                ty: _,
                arguments: _,
            } => *resolver,
        }
    }

    /// The type of the answer.
    pub fn ty(&self) -> &TypeRef
        requires { is_call self.now ≡ true }
        ensures { result.now ≡ type_in self.now }
    {
        match self {
            Asks::Typename => unreachable!(),
            Asks::Nothing => unreachable!(),
            Asks::Call {
                resolver: _,
                ty,
                arguments: _,
            } => ty,
        }
    }

    /// The values of the arguments.
    pub fn arguments(&self) -> &Pairs<Value>
        requires { is_call self.now ≡ true }
        ensures { result.now ≡ arguments_in self.now }
    {
        match self {
            Asks::Typename => unreachable!(),
            Asks::Nothing => unreachable!(),
            Asks::Call {
                resolver: _,
                ty: _,
                arguments,
            } => arguments,
        }
    }
}
