ghost use Rattle.std.specs.Prelude.{◌≡◌, IsSome, Some, None, MatchResult};
ghost use Rattle.std.proofs.Props.{props};
ghost use Rattle.gql_doc.specs.declared.document.Field.{out-Field};
ghost use Rattle.gql_request.specs.QueryEnv.{NestsIn};

use crate::field_value::FieldValue;
use crate::layers::Layers;
use crate::look_ahead::Lookahead;
use crate::parameter::{argument_of, parameter};
use crate::selection_field::SelectionField;
use gql_base::{Made, Pos, ServerResult, Value};
use gql_doc::Field;
use gql_input::{InputType, ObjectAccessor};
use gql_request::{DataContext, DataKey, NoData, QueryEnv, QueryPathNode};
use std::alloc::Global;

/// What a resolver is called with.
#[derive_where(Copy)]
pub struct ResolverContext<'a, V> {
    /// The number of the resolver.
    pub resolver: u32,
    /// The number of the task, in the order of making.
    pub task: u64,
    /// The arguments of the field.
    pub args: ObjectAccessor<'a>,
    /// What the resolver above gave, or the root value.
    pub parent_value: &'a FieldValue<V>,
    /// The path to the field.
    pub path_node: QueryPathNode<'a>,
    /// The field as it stands in the document. Its set, with what it spreads, nests within the
    /// levels of the environment.
    pub item: &'a Field,
    /// The environment of the query.
    pub env: &'a QueryEnv,
    /// The data of the layers.
    pub layers: Layers<'a>,
    pub ghost nests: { NestsIn env.now (out-Field item.now).selection_set } by { Prim.hlevel props },
}

impl<'a, V> Clone for ResolverContext<'a, V> {
    ghost use Rattle.std.specs.Prelude.{◌≡◌};

    ghost is_clone = { λ context copy. copy ≡ context };

    fn clone(&self) -> Made<ResolverContext<'a, V>> {
        Ok(*self)
    }
}

impl<'a, V> DataContext<'a> for ResolverContext<'a, V> {
    ghost use Rattle.gql_request.specs.Data.{found};
    ghost use Rattle.gql_resolve.specs.Layers.{layers_of};

    ghost held = { λ context key. found key (layers_of context.layers) };

    fn data_opt(&self, key: DataKey) -> Option<&'a Value> {
        self.layers.data_opt(key)
    }

    fn data(&self, key: DataKey) -> Result<&'a Value, NoData> {
        self.layers.data(key)
    }

    fn data_unchecked(&self, key: DataKey) -> &'a Value {
        self.layers.data_unchecked(key)
    }
}

impl<'a, V> ResolverContext<'a, V> {
    ghost use Rattle.std.specs.Prelude.{ℕ, ◌<◌, ◌↔◌, List, [], ◌∷◌, length, IfOk};
    ghost use Rattle.std.specs.List.{flat_map};
    ghost use Rattle.gql_resolve.specs.Beneath.{Stands, fields_beneath, named, selections_in};
    ghost use Rattle.gql_resolve.specs.Lookahead.{covered};
    ghost use Rattle.gql_resolve.specs.Parameter.{IsParameter};
    ghost use Rattle.gql_resolve.specs.SelectionField.{seen_of};

    /// A look at what is selected under the field: a field of a name is found exactly where one
    /// stands in the field's set.
    #[tactic(auto, using(crate::proofs::BeneathLaws::found_of_one))]
    pub fn look_ahead(&self, alloc: Global) -> Made<Lookahead<'a>>
        ensures item { IfOk result (λ ahead. covered ahead
            ≡ record { field = self.now.item.now; env = self.now.env.now } ∷ []) }
        ensures stands { IfOk result (λ ahead. (name : List ℕ)
            → (0 < length (flat_map (λ seen. named name (fields_beneath seen)) (covered ahead)))
            ↔ Stands self.now.env.now.fragments name (selections_in self.now.item.now)) }
    {
        Lookahead::from_field(alloc, self.field())
    }

    /// The field as it stands in the document.
    pub fn field(&self) -> SelectionField<'a>
        ensures { seen_of result ≡ record { field = self.now.item.now; env = self.now.env.now } }
    {
        SelectionField::new(self.item, self.env)
    }

    /// What the argument of a name gives at an input type, with the place of its value. A default
    /// is given where no argument has the name, at line 0 and column 0. A refusal has the same
    /// place: of a value that isn't of the type, with the extensions that the type gave it, and of a
    /// variable that the operation doesn't define.
    pub fn param_value<T: InputType + Drop>(
        &self,
        alloc: Global,
        name: &str,
        default: Option<T>,
    ) -> Made<ServerResult<(Pos, T)>>
        ensures { IfOk result
            (IsParameter T.read self.now.env.now self.now.item.now name.now default) }
    {
        parameter(alloc, self.env, argument_of(self.item, name), default)
    }
}
