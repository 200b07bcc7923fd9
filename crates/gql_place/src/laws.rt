//! Laws on places. Each is the contract of a function without parameters.

ghost use Rattle.gql_place.specs.Laws.{DocumentsApartAreMerged, JoinedWithItself};
ghost use Rattle.gql_place.specs.Laws.{MutationPlacesApartAreMerged};
ghost use Rattle.gql_place.specs.Laws.{PlacesApartAreMerged};

/// The places of answers, of which each occurrence has one of its own, joined under their keys, are
/// those of merged execution, where the set agrees with itself (GraphQL, October 2021, section
/// 6.3.2).
pub fn places_apart_are_merged<O, P, F, X>()
    ensures { PlacesApartAreMerged O P F X }
{}

/// The same of a mutation, in whose worlds answers differ (section 6.2.2).
pub fn mutation_places_apart_are_merged<O, P, F, X, W>()
    ensures { MutationPlacesApartAreMerged O P F X W }
{}

/// Where a document has no conflicts between the fields of one key, what `@skip` and `@include`
/// leave of it comes to the same places whether each occurrence is answered apart or each key once.
pub fn documents_apart_are_merged<P, E>()
    ensures { DocumentsApartAreMerged P E }
{}

/// A place joined with itself is itself, where no object in it has a key twice.
pub fn joined_with_itself()
    ensures { JoinedWithItself }
{}
