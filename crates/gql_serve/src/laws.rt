//! Laws on journals. Each is the contract of a function without parameters.
ghost use Rattle.gql_serve.specs.Laws.{LeadsToOne};

use gql_resolve::ResolverSet;

/// A journal leads from its origin to at most one world, whatever the turns of its executions were:
/// so the world of a book's set is the one to which its journal leads.
pub fn one_world_of_a_journal<R: ResolverSet>()
    ensures { LeadsToOne R.ResolverSet }
{}
