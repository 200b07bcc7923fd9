//! One look at the selections that are left of a set.
ghost use Rattle.std.specs.Prelude.{◌≡◌, ◌∷◌};
ghost use Rattle.gql_doc.specs.declared.document.Selection.TheOpen.{Selection-F};
ghost use Rattle.gql_doc.specs.declared.document.Selection.{out-Selection};
ghost use Rattle.gql_resolve.specs.Nesting.{RestNests};
ghost use Rattle.gql_resolve.specs.OpenSets.{IsStep};

use crate::open_set::OpenSet;
use crate::selection_field::SelectionField;
use crate::stepping::Step;
use gql_doc::{Field, FragmentSpread, InlineFragment, Positioned, Selection};

/// Looks at the first of the selections that are left.
pub(crate) fn step(opened: OpenSet<'_>) -> Step<'_>
    ensures { IsStep opened.entry.env.now opened.entry.left opened.entry.selections.now result }
{
    match opened.selections.split_first() {
        None => Step::Done,
        Some((first, rest)) => look(opened, first, rest),
    }
}

/// Looks at a selection, after which others are left.
fn look<'a>(
    opened: OpenSet<'a>,
    first: &'a Positioned<Selection>,
    rest: &'a [Positioned<Selection>],
) -> Step<'a>
    requires { RestNests opened.env.now.fragments opened.left (first.now ∷ rest.now) }
    ensures { IsStep opened.entry.env.now opened.entry.left (first.entry.now ∷ rest.entry.now) result }
{
    match &first.node {
        Selection::Field(field) => give(opened, first, rest, field),
        Selection::InlineFragment(fragment) => enter(opened, first, rest, fragment),
        Selection::FragmentSpread(spread) => follow(opened, first, rest, spread),
    }
}

/// Gives a field.
#[tactic(auto, using(crate::proofs::NestingLemmas::rest_nests, crate::proofs::NestingLemmas::given_nests, crate::proofs::StepLemmas::given_first))]
fn give<'a>(
    opened: OpenSet<'a>,
    first: &'a Positioned<Selection>,
    rest: &'a [Positioned<Selection>],
    field: &'a Positioned<Field>,
) -> Step<'a>
    requires nests { RestNests opened.env.now.fragments opened.left (first.now ∷ rest.now) }
    requires is { out-Selection first.now.node ≡ Selection-F.Field field.now }
    ensures { IsStep opened.entry.env.now opened.entry.left (first.entry.now ∷ rest.entry.now) result }
{
    let found = SelectionField::new(&field.node, opened.env);
    Step::Gives(found, opened.behind(rest))
}

/// Enters a fragment in place.
#[tactic(auto, using(crate::proofs::NestingLemmas::rest_nests, crate::proofs::NestingLemmas::some_levels, crate::proofs::NestingLemmas::inline_nests, crate::proofs::StepLemmas::inline_entered))]
fn enter<'a>(
    opened: OpenSet<'a>,
    first: &'a Positioned<Selection>,
    rest: &'a [Positioned<Selection>],
    fragment: &'a Positioned<InlineFragment>,
) -> Step<'a>
    requires nests { RestNests opened.env.now.fragments opened.left (first.now ∷ rest.now) }
    requires is { out-Selection first.now.node ≡ Selection-F.InlineFragment fragment.now }
    ensures { IsStep opened.entry.env.now opened.entry.left (first.entry.now ∷ rest.entry.now) result }
{
    let inner = opened.deeper(&fragment.node.selection_set);
    Step::Enters(inner, opened.behind(rest))
}

/// Enters the fragment of a spread, if there is one of its name.
#[tactic(auto, using(crate::proofs::NestingLemmas::rest_nests, crate::proofs::NestingLemmas::some_levels, crate::proofs::NestingLemmas::spread_nests, crate::proofs::StepLemmas::spread_entered, crate::proofs::StepLemmas::spread_passed))]
fn follow<'a>(
    opened: OpenSet<'a>,
    first: &'a Positioned<Selection>,
    rest: &'a [Positioned<Selection>],
    spread: &'a Positioned<FragmentSpread>,
) -> Step<'a>
    requires nests { RestNests opened.env.now.fragments opened.left (first.now ∷ rest.now) }
    requires is { out-Selection first.now.node ≡ Selection-F.FragmentSpread spread.now }
    ensures { IsStep opened.entry.env.now opened.entry.left (first.entry.now ∷ rest.entry.now) result }
{
    let name = spread.node.fragment_name.node.as_str();
    match opened.env.fragments.get(name) {
        None => Step::Passes(opened.behind(rest)),
        Some(fragment) => {
            let inner = opened.deeper(&fragment.node.selection_set);
            Step::Enters(inner, opened.behind(rest))
        }
    }
}
