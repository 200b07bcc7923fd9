//! What is made of the builder of a schema.
ghost use Rattle.std.specs.Prelude.{IfOk};

use crate::schema::Schema;
use gql_base::Made;
use gql_schema::SchemaError;
use gql_settings::SchemaBuilder;
use std::alloc::Global;

/// What can be finished to a schema.
pub trait SchemaBuilderExt {
    ghost use Rattle.gql_exec.specs.Builder.{GivesSchema};
    ghost use Rattle.gql_settings.specs.declared.builder.SchemaBuilder.{SchemaBuilder as OneBuilder};

    ghost builder_in: { Self → OneBuilder };

    /// The schema, where no rule of the table of types is broken, and else the first refusal. Where
    /// federation is asked for, or an object has a key, the table has its two types; it has the
    /// scalars of every schema.
    fn finish(self, alloc: Global) -> Made<Result<Schema, SchemaError>>
        ensures finished { IfOk result (λ outcome. GivesSchema (builder_in self) outcome) };
}

impl SchemaBuilderExt for SchemaBuilder {
    ghost builder_in = { λ builder. builder };

    fn finish(self, alloc: Global) -> Made<Result<Schema, SchemaError>> {
        let (types, settings) = self.into_parts(alloc)?;
        match types.finish(alloc)? {
            Ok(types) => Ok(Ok(Schema::of(types, settings))),
            Err(error) => Ok(Err(error)),
        }
    }
}
