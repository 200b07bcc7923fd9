//! What is read of a bench can be moved to threads and shared between them.
use gql_form::BenchForm;

fn shared<T: Send + Sync>() {}

fn of_bench_form() {
    shared::<BenchForm>();
}
