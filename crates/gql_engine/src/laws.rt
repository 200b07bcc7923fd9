//! Laws on how the places of tasks are put together, and on what merged and apart execution have in
//! common. Each is the contract of a function without parameters.

ghost use Rattle.std.specs.Prelude.{ℕ};
ghost use Rattle.gql_engine.specs.declared.scene.Scene.{Scene};
ghost use Rattle.gql_resolve.specs.Call.{Call};
ghost use Rattle.gql_resolve.specs.declared.answer.Answer.{Answer};
ghost use Rattle.gql_engine.specs.Laws.{AgreeingApartIsMerged};
ghost use Rattle.gql_engine.specs.Laws.{AgreeingMutationApartIsMerged};
ghost use Rattle.gql_engine.specs.Laws.{CollectedNest, FieldsAskTheirCalls, MembersAreMerged};
ghost use Rattle.gql_engine.specs.Laws.{MutationsAreGrouped, QueriesAreGrouped};
ghost use Rattle.gql_engine.specs.Laws.{SchemaAloneHasNoTask, TasksAreJobs, TreesAreMerged};

/// A field asks the call that the meaning of execution says, made of what its name and its
/// arguments ask on its object (GraphQL, October 2021, section 6.4.1).
pub fn fields_ask_their_calls<V>()
    ensures { FieldsAskTheirCalls V }
{}

/// The places of the tasks of an object make the members that merged execution says (section 6.3).
pub fn members_are_merged<V>()
    ensures { MembersAreMerged V }
{}

/// A completed answer, taken apart and put together of the places of the tasks under it, is what
/// merged execution says (section 6.4.3).
pub fn trees_are_merged<V>()
    ensures { TreesAreMerged V }
{}

/// The tasks that a level makes for a value of its object are those of the definition, in their
/// order.
pub fn tasks_are_jobs<V>()
    ensures { TasksAreJobs V }
{}

/// The set of each field that an object has in a set nests within the levels of that set.
pub fn collected_sets_nest()
    ensures { CollectedNest }
{}

/// What `run_grouped` comes to: by key, to the place of merged execution, with as many answers
/// asked; with each occurrence apart, to that of apart execution (section 6.3.2).
pub fn queries_are_grouped<V>()
    ensures { (scene : Scene V) (answer : Call V → Answer V) (n : ℕ)
        → QueriesAreGrouped scene answer n }
{}

/// The same of `run_mutation_grouped`, whose root keys are merged in any case (section 6.2.2).
pub fn mutations_are_grouped<V, W>()
    ensures { (scene : Scene V) (answer : Call V → W → Answer V) (effect : Call V → W → W)
        (world : W) (n : ℕ) → MutationsAreGrouped scene answer effect world n }
{}

/// Where the schema alone is asked for, there is no task to begin with, of a query or of a mutation:
/// so nothing is asked of any set and any turns.
pub fn schema_alone_has_no_task<V>()
    ensures { SchemaAloneHasNoTask V }
{}

/// Where the fields of one key agree, answering each occurrence apart and joining the places is
/// merged execution (section 6.3.2).
pub fn agreeing_apart_is_merged<V>()
    ensures { AgreeingApartIsMerged V }
{}

/// The same of a mutation, whose root keys are answered one after another (section 6.2.2).
pub fn agreeing_mutation_apart_is_merged<V, W>()
    ensures { AgreeingMutationApartIsMerged V W }
{}
