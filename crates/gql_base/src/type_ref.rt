ghost use Rattle.std.specs.Prelude.{◌≡◌, ◌++◌, IfOk, OnOk, codes, string_bytes};
ghost use Rattle.gql_base.specs.TypeRef.{type_text, innermost, is_nullable as nullable};

use crate::boxed::Boxed;
use crate::made::Made;
use crate::name::Name;
use crate::text::Text;
use std::alloc::Global;

/// A type as it is referred to (GraphQL, October 2021, section 2.11).
#[derive(Debug, Drop)]
pub enum TypeRef {
    Named(Name),
    NonNull(Boxed<TypeRef>),
    List(Boxed<TypeRef>),
}

impl TypeRef {
    pub const INT: &'static str = "Int";

    pub const STRING: &'static str = "String";

    pub const BOOLEAN: &'static str = "Boolean";

    pub const ID: &'static str = "ID";

    /// These are the names of the built-in scalars (section 3.5).
    pub fn names_of_scalars()
        ensures int { TypeRef.INT.now ≡ codes "Int" }
        ensures string { TypeRef.STRING.now ≡ codes "String" }
        ensures boolean { TypeRef.BOOLEAN.now ≡ codes "Boolean" }
        ensures id { TypeRef.ID.now ≡ codes "ID" }
    {}

    /// The type `T`, for the name T.
    pub fn named(alloc: Global, name: &str) -> Made<TypeRef>
        ensures { IfOk result (λ made. made ≡ TypeRef.Named name.now) }
    {
        Ok(TypeRef::Named(Name::new(alloc, name)?))
    }

    /// The type `T!`, for the name T.
    pub fn named_nn(alloc: Global, name: &str) -> Made<TypeRef>
        ensures { IfOk result (λ made. made ≡ TypeRef.NonNull (TypeRef.Named name.now)) }
    {
        TypeRef::named(alloc, name)?.non_null(alloc)
    }

    /// The type `[T]`, for the name T.
    pub fn named_list(alloc: Global, name: &str) -> Made<TypeRef>
        ensures { IfOk result (λ made. made ≡ TypeRef.List (TypeRef.Named name.now)) }
    {
        TypeRef::named(alloc, name)?.list(alloc)
    }

    /// The type `[T]!`, for the name T.
    pub fn named_list_nn(alloc: Global, name: &str) -> Made<TypeRef>
        ensures { IfOk result (λ made. made
            ≡ TypeRef.NonNull (TypeRef.List (TypeRef.Named name.now))) }
    {
        TypeRef::named_list(alloc, name)?.non_null(alloc)
    }

    /// The type `[T!]`, for the name T.
    pub fn named_nn_list(alloc: Global, name: &str) -> Made<TypeRef>
        ensures { IfOk result (λ made. made
            ≡ TypeRef.List (TypeRef.NonNull (TypeRef.Named name.now))) }
    {
        TypeRef::named_nn(alloc, name)?.list(alloc)
    }

    /// The type `[T!]!`, for the name T.
    pub fn named_nn_list_nn(alloc: Global, name: &str) -> Made<TypeRef>
        ensures { IfOk result (λ made. made
            ≡ TypeRef.NonNull (TypeRef.List (TypeRef.NonNull (TypeRef.Named name.now)))) }
    {
        TypeRef::named_nn_list(alloc, name)?.non_null(alloc)
    }

    /// This type, non-null.
    pub fn non_null(self, alloc: Global) -> Made<TypeRef>
        ensures { IfOk result (λ made. made ≡ TypeRef.NonNull self) }
    {
        Ok(TypeRef::NonNull(Boxed::new(alloc, self)?))
    }

    /// The lists of this type.
    pub fn list(self, alloc: Global) -> Made<TypeRef>
        ensures { IfOk result (λ made. made ≡ TypeRef.List self) }
    {
        Ok(TypeRef::List(Boxed::new(alloc, self)?))
    }

    /// The name that stands innermost.
    pub fn type_name(&self) -> &str
        ensures { result.now ≡ innermost self.now }
    {
        match self {
            TypeRef::Named(name) => name.as_str(),
            TypeRef::NonNull(inner) | TypeRef::List(inner) => inner.get().type_name(),
        }
    }

    /// True exactly where the type isn't non-null.
    pub fn is_nullable(&self) -> bool
        ensures { result ≡ nullable self.now }
    {
        match self {
            TypeRef::Named(_) | TypeRef::List(_) => true,
            TypeRef::NonNull(_) => false,
        }
    }

    /// The type as it is written in a document, such as `[Int!]`.
    pub fn text(&self, alloc: Global) -> Made<Text>
        ensures { IfOk result (λ text. text ≡ type_text self.now) }
    {
        let mut out = String::new(alloc);
        push_type(&mut out, self)?;
        Text::from_string(out)
    }
}

/// Appends the text of a type.
pub fn push_type(out: &mut String, ty: &TypeRef) -> Made<()>
    ensures { OnOk result (string_bytes out.new ≡ string_bytes out.old ++ type_text ty.now) }
{
    match ty {
        TypeRef::Named(name) => out.push_str(name.as_str()),
        TypeRef::NonNull(inner) => {
            push_type(out, inner.get())?;
            out.push('!')
        }
        TypeRef::List(inner) => {
            out.push('[')?;
            push_type(out, inner.get())?;
            out.push(']')
        }
    }
}
