//! The schema of the bench: `Query { rows: [Row!]! }` and `Row { id: Int!, tag: String }`.
ghost use Rattle.std.specs.Prelude.{◌≡◌, ◌∷◌, [], IfOk};
ghost use Rattle.gql_load.specs.Schema.{field_by, load_schema, load_settings, object_of};
ghost use Rattle.gql_load.specs.Schema.{query_type, row_type};

use crate::rows::load_rows;
use gql_base::{Items, Made, Name, Pairs, Text, TypeRef, Value};
use gql_form::{
    AnswerForm, Answered, Delay, FieldForm, ObjectForm, RuleForm, SchemaForm, Settings, TypeForm,
};
use gql_request::IntrospectionMode;
use std::alloc::Global;

/// The schema with so many rows.
pub(crate) fn load_schema(alloc: Global, rows: usize) -> Made<SchemaForm>
    ensures { IfOk result (λ schema. schema ≡ load_schema rows) }
{
    let query = Text::new(alloc, "Query")?;
    let mut types = Items::with_capacity(alloc, 2)?;
    types.push(query_type(alloc, rows)?)?;
    types.push(row_type(alloc)?)?;
    Ok(SchemaForm {
        query,
        mutation: None,
        subscription: None,
        types,
        settings: Settings {
            depth: None,
            directives: None,
            introspection: IntrospectionMode::Enabled,
            federation: false,
            entities: false,
        },
    })
}

/// The type of the root: its one field answers the constant list of so many rows.
fn query_type(alloc: Global, rows: usize) -> Made<TypeForm>
    ensures { IfOk result (λ form. form ≡ query_type rows) }
{
    let rows = Value::list(alloc, load_rows(alloc, rows)?)?;
    let rule = RuleForm::Const(Answered::Value(rows));
    let ty = TypeRef::named_nn_list_nn(alloc, "Row")?;
    let mut fields = Pairs::new(alloc);
    fields.add(Name::new(alloc, "rows")?, field_by(alloc, ty, rule))?;
    object_of(alloc, "Query", fields)
}

/// The type of the rows: its fields answer their members.
fn row_type(alloc: Global) -> Made<TypeForm>
    ensures { IfOk result (λ form. form ≡ row_type) }
{
    let id = RuleForm::Member(Name::new(alloc, "id")?);
    let id_type = TypeRef::named_nn(alloc, TypeRef::INT)?;
    let tag = RuleForm::Member(Name::new(alloc, "tag")?);
    let tag_type = TypeRef::named(alloc, TypeRef::STRING)?;
    let mut fields = Pairs::new(alloc);
    fields.add(Name::new(alloc, "id")?, field_by(alloc, id_type, id))?;
    fields.add(Name::new(alloc, "tag")?, field_by(alloc, tag_type, tag))?;
    object_of(alloc, "Row", fields)
}

/// An object type of these fields, with nothing beside them.
fn object_of(alloc: Global, name: &str, fields: Pairs<FieldForm>) -> Made<TypeForm>
    ensures { IfOk result (λ form. form ≡ object_of name.now fields) }
{
    Ok(TypeForm::Object(ObjectForm {
        name: Name::new(alloc, name)?,
        interfaces: Items::new(alloc),
        key: None,
        fields,
    }))
}

/// A field that a rule answers at once, with nothing beside the answer.
fn field_by(alloc: Global, ty: TypeRef, rule: RuleForm) -> FieldForm
    ensures { result ≡ field_by ty rule }
{
    let answer = AnswerForm {
        delay: Delay { polls: 0 },
        added: Items::new(alloc),
        headers: Items::new(alloc),
        rule,
    };
    FieldForm {
        ty,
        args: Items::new(alloc),
        answer,
    }
}
