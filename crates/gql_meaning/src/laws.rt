//! Laws on what execution means. Each is the contract of a function without parameters.

ghost use Rattle.gql_meaning.specs.Laws.{ApartIsMerged, CompletionFits, IntrospectionAsksNothing};
ghost use Rattle.gql_meaning.specs.Laws.{IntrospectionChangesNoWorld, IntrospectionNeedsNoAnswer};
ghost use Rattle.gql_meaning.specs.Laws.{OnlyAnswersChangeWorlds};

/// An answer comes to objects alone that the type of its field can be (GraphQL, October 2021,
/// section 6.4.3).
pub fn completion_fits<V>()
    ensures { CompletionFits V }
{}

/// An operation that has no conflicts comes to the same place, whether each occurrence of a field
/// asks an answer of its own or each key of a set asks one (section 6.3.2). The root keys of a
/// mutation are answered one after another in both (section 6.2.2).
pub fn apart_is_merged<V, W, E>()
    ensures { ApartIsMerged V W E }
{}

/// The world after a mutation is the one after all of its root keys that ask an answer.
pub fn only_answers_change_worlds<V, W>()
    ensures { OnlyAnswersChangeWorlds V W }
{}

/// In introspection-only mode no answer is asked.
pub fn introspection_asks_nothing<V, W>()
    ensures { IntrospectionAsksNothing V W }
{}

/// So the place is the same, whatever would be answered.
pub fn introspection_needs_no_answer<V, W>()
    ensures { IntrospectionNeedsNoAnswer V W }
{}

/// And the world stays as it was, after a mutation, too.
pub fn introspection_changes_no_world<V, W>()
    ensures { IntrospectionChangesNoWorld V W }
{}
