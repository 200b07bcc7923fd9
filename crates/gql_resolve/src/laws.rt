//! Laws on what is selected under a field.
ghost use Rattle.std.specs.Prelude.{ℕ, ◌<◌, ◌↔◌, List, length};
ghost use Rattle.gql_doc.specs.declared.document.Field.{Field as SomeField, out-Field};
ghost use Rattle.gql_request.specs.QueryEnv.{NestsIn};
ghost use Rattle.gql_request.specs.declared.query_env.QueryEnv.{QueryEnv as SomeEnv};
ghost use Rattle.gql_resolve.specs.Beneath.{Stands, fields_beneath, named, selections_in};

/// A field of a name is found under another exactly where one stands in its set, through
/// fragments in place and known spreads, whatever their conditions.
#[tactic(auto, using(crate::proofs::BeneathLaws::found_where_it_stands))]
pub fn fields_are_found_where_they_stand()
    ensures { (env : SomeEnv) (field : SomeField) (name : List ℕ)
        → NestsIn env (out-Field field).selection_set
        → ((0 < length (named name (fields_beneath (record { field = field; env = env }))))
        ↔ Stands env.fragments name (selections_in field)) }
{}
