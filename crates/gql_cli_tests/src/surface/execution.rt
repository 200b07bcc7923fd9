//! What users name of schemas, resolvers, admission, execution and the program.
pub use gql_admit::{
    Chosen, Site, check_depth, check_depth_counted, check_directives, check_directives_counted,
    check_rules, choose_operation, keep, prepare,
};
pub use gql_cli::{
    Bench, Command, EventForm, Failed, ListTurns, MemorySink, MemorySource, RecordEntry, Rule,
    SessionForm, Sink, SinkFault, Source, StdSink, StdSource, SureSink, SureSource, Table,
    TableMaker, Tables, bench_of, run, run_alone,
};
pub use gql_engine::{
    Place, Scene, Tree, collect_counted, faults, header_ops, join, raise, run_apart, run_merged,
};
pub use gql_exec::{
    DynamicRequest, DynamicRequestExt, Ready, Schema, SchemaBuilder, SchemaBuilderExt,
};
pub use gql_resolve::{
    And, Answer, ConstDirective, FieldFuture, FieldValue, FnGuard, Guard, GuardExt, Layers,
    Lookahead, Or, Polled, ResolverContext, ResolverSet, SelectionField, SelectionFieldsIter,
    Turns,
};
pub use gql_schema::{
    Enum, Field, InputObject, InputValue, Interface, InterfaceField, Object, Scalar, ScalarRule,
    SchemaError, SchemaType, Subscription, SubscriptionField, Types, Union,
};
pub use gql_serve::{
    Book, CloseFault, Entry, Outcome, Roll, Seat, Served, Work, execute_batch_threads,
};
