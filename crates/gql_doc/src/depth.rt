//! Laws on how deep the sets of a document lie.
ghost use Rattle.std.specs.Prelude.{◌≡◌, ℕ, ◌≤◌, None};
ghost use Rattle.gql_doc.specs.declared.document.Positioned.{Positioned as Placed};
ghost use Rattle.gql_doc.specs.declared.document.SelectionSet.{SelectionSet as Set};
ghost use Rattle.gql_doc.specs.Depth.{Fragments, deep_from};

/// Where no set lies too deep within so many levels, none does within more.
#[tactic(auto, using(crate::proofs::DepthLaws::deep_less))]
pub fn more_levels_find_no_more()
    ensures { (fragments : Fragments) (fewer more : ℕ) (set : Placed Set) → fewer ≤ more
        → deep_from fragments fewer set ≡ None → deep_from fragments more set ≡ None }
{}
