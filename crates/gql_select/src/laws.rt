//! Laws on selections. Each is the contract of a function without parameters.

ghost use Rattle.gql_select.specs.Fewer.{FewerAreGrouped, FewerAreSerial, FewerConflict};
ghost use Rattle.gql_select.specs.Laws.{ApartIsMerged, DocumentsAreRead, KeptAgrees};
ghost use Rattle.gql_select.specs.Laws.{KeptApartIsMerged, MergedGroupsAreGrouped};
ghost use Rattle.gql_select.specs.Laws.{MutationApartIsMerged, NoConflictAgrees, SameConstants};
ghost use Rattle.gql_select.specs.Once.{OnceLeavesOut};
ghost use Rattle.gql_select.specs.Pairwise.{AgreeingHasNone, CleanPairs, PairsClean};

/// A set without conflicts between the fields of one key agrees with itself (GraphQL, October 2021,
/// section 5.3.2).
pub fn no_conflict_agrees<O, F, X, E>()
    ensures { NoConflictAgrees O F X E }
{}

/// A set that agrees with itself has no conflicts: whether there is one is a question about pairs
/// of occurrences that are reached together.
pub fn agreeing_has_none<O, F, X, E>()
    ensures { AgreeingHasNone O F X E }
{}

/// Sets of which each two agree have no conflicts together.
pub fn clean_pairs<O, F, X, E, N>()
    ensures { CleanPairs O F X E N }
{}

/// Each two of some sets agree where they have no conflicts together.
pub fn pairs_clean<O, F, X, E, N>()
    ensures { PairsClean O F X E N }
{}

/// Answering by groups is merged execution, where a group is all occurrences of a key: nothing is
/// left to be joined.
pub fn merged_groups_are_grouped<O, P, F, X, Pl>()
    ensures { MergedGroupsAreGrouped O P F X Pl }
{}

/// Answering each occurrence of a field apart and joining the places is answering each key once, on
/// merged sets (section 6.3.2), where the set agrees with itself.
pub fn apart_is_merged<O, P, F, X, Pl>()
    ensures { ApartIsMerged O P F X Pl }
{}

/// The same of a mutation, whose root keys are answered one after another, each in the world that
/// those before it left (section 6.2.2).
pub fn mutation_apart_is_merged<O, P, F, X, Pl, W>()
    ensures { MutationApartIsMerged O P F X Pl W }
{}

/// The sets of documents are read as these laws ask.
pub fn documents_are_read()
    ensures { DocumentsAreRead }
{}

/// Occurrences that ask the same have the same constants (section 6.4.1).
pub fn same_constants()
    ensures { SameConstants }
{}

/// What agrees in a document agrees in what `@skip` and `@include` leave of it.
pub fn kept_agrees()
    ensures { KeptAgrees }
{}

/// Answering each occurrence apart and joining the places is answering each key once, in what is
/// kept of a document without conflicts.
pub fn kept_apart_is_merged<P, Pl, E>()
    ensures { KeptApartIsMerged P Pl E }
{}

/// Merged execution is the same over fewer occurrences of fields, where those that are left out
/// stand before, too. With numbers for places it says that of the number of answers asked.
pub fn fewer_are_grouped<O, P, F, X, Pl>()
    ensures { FewerAreGrouped O P F X Pl }
{}

/// The same of a mutation, whose root keys are answered one after another (section 6.2.2).
pub fn fewer_are_serial<O, P, F, X, Pl, W>()
    ensures { FewerAreSerial O P F X Pl W }
{}

/// Fewer occurrences have the same conflicts, in the same order, where those that are left out
/// stand before, too (section 5.3.2).
pub fn fewer_conflict<O, F, X, E>()
    ensures { FewerConflict O F X E }
{}

/// Entering each fragment at its first spread alone (section 6.3.2) leaves out nothing but what
/// stands before, in sets that nest within the levels that are entered.
pub fn once_leaves_out()
    ensures { OnceLeavesOut }
{}
