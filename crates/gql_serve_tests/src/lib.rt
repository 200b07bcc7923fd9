//! Tests of works on threads, of books and of services.
#![tactic(auto)]

#[cfg(test)]
mod batch_tests;
#[cfg(test)]
mod book_tests;
#[cfg(test)]
mod calls;
mod cells;
#[cfg(test)]
mod close_tests;
#[cfg(test)]
mod closing;
#[cfg(test)]
mod day_tests;
#[cfg(test)]
mod journal_tests;
#[cfg(test)]
mod pair;
#[cfg(test)]
mod requests;
#[cfg(test)]
mod schema_tests;
#[cfg(test)]
mod schemas;
#[cfg(test)]
mod service_tests;
#[cfg(test)]
mod waiting_tests;
#[cfg(test)]
mod waits;
