//! Laws on what execution means over a schema. Each is the contract of a function without
//! parameters.
ghost use Rattle.gql_exec.specs.Laws.{AdmittedApartIsMerged, AdmittedHasNoConflicts, AlikeSets};
ghost use Rattle.gql_exec.specs.Laws.{AsksOneCount, HasOneResponse, KeptIsWritten, LeavesOneWorld};

use gql_resolve::ResolverSet;

/// A request has at most one response over what is served, leaves at most one world and asks at
/// most one number of answers, since what is served is no matter of turns (GraphQL, October 2021,
/// section 6).
pub fn one_response_to_a_request<V, W>()
    ensures response { HasOneResponse V W }
    ensures world { LeavesOneWorld V W }
    ensures asked { AsksOneCount V W }
{}

/// So two responses to a request over two sets of one type with equal rules and equal worlds are
/// equal, and so are the worlds that it leaves: whatever the turns of each are.
pub fn alike_sets_respond_alike<R: ResolverSet>()
    ensures { AlikeSets R.ResolverSet }
{}

/// An admitted request has no conflicts: the fields of one key can be merged, everywhere in its
/// operation (section 5.3.2).
pub fn admitted_has_no_conflicts<V>()
    ensures { AdmittedHasNoConflicts V }
{}

/// Each occurrence of a field answered apart and places of one key joined, an admitted request has
/// the response of merged execution (section 6.3.2), be it a query or a mutation.
pub fn admitted_apart_is_merged<V, W>()
    ensures { AdmittedApartIsMerged V W }
{}

/// What admission kept of a request is what is written: the tasks of its scene come to the places,
/// the world and the count that the meaning of execution says of its operation.
pub fn kept_is_written<V, W>()
    ensures { KeptIsWritten V W }
{}
