ghost use Rattle.std.specs.Prelude.{◌≡◌};
ghost use Rattle.std.specs.Option.{option_copied};
ghost use Rattle.gql_schema.specs.Covariance.{is_covariant};
ghost use Rattle.gql_schema.specs.Table.{types_of};
ghost use Rattle.gql_schema.specs.TableReading.{both_known, covers, has_object, has_type};
ghost use Rattle.gql_schema.specs.TableReading.{is_known_object, is_object};

use crate::fits::nullable;
use crate::schema_type::SchemaType;
use crate::types::Types;
use gql_base::TypeRef;

impl Types {
    /// True exactly where a condition on types lets the object through: none, the object itself, an
    /// interface that it implements, or a union that holds it.
    pub fn covers(&self, condition: Option<&str>, object: &str) -> bool
        ensures { result ≡ covers (types_of self.now) (option_copied condition.entry) object.now }
    {
        match condition {
            None => true,
            Some(name) => type_has(self, name, object),
        }
    }
}

/// True exactly where a type has the object: is it, or is an interface or a union that has it.
pub fn type_has(types: &Types, name: &str, object: &str) -> bool
    ensures { result ≡ has_type (types_of types.now) name.now object.now }
{
    name == object || known_type_has(types.get(object), types.get(name), object)
}

fn known_type_has(object: Option<&SchemaType>, ty: Option<&SchemaType>, name: &str) -> bool
    ensures { result
        ≡ both_known (has_object name.now) (option_copied object.entry) (option_copied ty.entry) }
{
    match (object, ty) {
        (Some(object), Some(ty)) => has_object_type(name, object, ty),
        _ => false,
    }
}

/// True exactly where an interface or a union has the object of this name.
fn has_object_type(name: &str, object: &SchemaType, ty: &SchemaType) -> bool
    ensures { result ≡ has_object name.now object.now ty.now }
{
    match ty {
        SchemaType::Interface(interface) => match object {
            SchemaType::Object(object) => object.implements(interface.type_name()),
            _ => false,
        },
        SchemaType::Union(union_type) => is_object_type(object) && union_type.members().has(name),
        _ => false,
    }
}

/// True exactly where the type is an object.
pub fn is_object_type(ty: &SchemaType) -> bool
    ensures { result ≡ is_object ty.now }
{
    matches!(ty, SchemaType::Object(_))
}

/// True exactly where there is an object.
pub fn is_known_object_type(ty: Option<&SchemaType>) -> bool
    ensures { result ≡ is_known_object (option_copied ty.entry) }
{
    match ty {
        Some(ty) => is_object_type(ty),
        None => false,
    }
}

/// True exactly where a type may stand where an interface promises another.
pub fn is_covariant_to(ty: &TypeRef, promised: &TypeRef, types: &Types) -> bool
    ensures { result ≡ is_covariant (types_of types.now) ty.now promised.now }
{
    match ty {
        TypeRef::Named(name) => match promised {
            TypeRef::Named(other) => type_has(types, other.as_str(), name.as_str()),
            _ => false,
        },
        TypeRef::NonNull(inner) => is_covariant_to(inner.get(), nullable(promised), types),
        TypeRef::List(inner) => match promised {
            TypeRef::List(other) => is_covariant_to(inner.get(), other.get(), types),
            _ => false,
        },
    }
}
