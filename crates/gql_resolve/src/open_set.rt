ghost use Rattle.std.specs.Prelude.{◌≡◌, ◌<◌, ◌≤◌, ◌-◌, None};
ghost use Rattle.std.proofs.Props.{props};
ghost use Rattle.gql_doc.specs.Depth.{deep_from, selections_of};
ghost use Rattle.gql_request.specs.QueryEnv.{NestsIn, levels_of};
ghost use Rattle.gql_resolve.specs.Nesting.{RestNests};

use gql_doc::{Positioned, Selection, SelectionSet};
use gql_request::QueryEnv;

/// What is left of a set, and so many levels of sets suffice for it.
#[derive(Clone, Copy)]
pub(crate) struct OpenSet<'a> {
    pub(crate) env: &'a QueryEnv,
    pub(crate) left: usize,
    pub(crate) selections: &'a [Positioned<Selection>],
    ghost nests: { RestNests env.now.fragments left selections.now } by { Prim.hlevel props },
    ghost inside: { left ≤ levels_of env.now },
}

impl<'a> OpenSet<'a> {
    /// A whole set that nests within the levels of its query.
    #[tactic(auto, using(crate::proofs::NestingLemmas::set_nests))]
    pub(crate) fn whole(env: &'a QueryEnv, set: &'a Positioned<SelectionSet>) -> OpenSet<'a>
        requires { NestsIn env.now set.now }
        ensures env { result.env.now ≡ env.entry.now }
        ensures left { result.left ≡ levels_of env.entry.now }
        ensures selections { result.selections.now ≡ selections_of set.entry.now }
    {
        OpenSet {
            env,
            left: env.levels(),
            selections: set.node.items.as_slice(),
        }
    }

    /// A set one level deeper.
    #[tactic(auto, using(crate::proofs::NestingLemmas::set_nests))]
    pub(crate) fn deeper(self, set: &'a Positioned<SelectionSet>) -> OpenSet<'a>
        requires some { 0 < self.left }
        requires nests { deep_from self.env.now.fragments (self.left - 1) set.now ≡ None }
        ensures env { result.env.now ≡ self.entry.env.now }
        ensures left { result.left ≡ self.entry.left - 1 }
        ensures selections { result.selections.now ≡ selections_of set.entry.now }
    {
        OpenSet {
            env: self.env,
            left: self.left - 1,
            selections: set.node.items.as_slice(),
        }
    }

    /// The same set with fewer selections left.
    pub(crate) fn behind(self, selections: &'a [Positioned<Selection>]) -> OpenSet<'a>
        requires { RestNests self.env.now.fragments self.left selections.now }
        ensures env { result.env.now ≡ self.entry.env.now }
        ensures left { result.left ≡ self.entry.left }
        ensures selections { result.selections.now ≡ selections.entry.now }
    {
        OpenSet {
            env: self.env,
            left: self.left,
            selections,
        }
    }
}
