//! Tests of tickets and turns.
#![tactic(auto)]

mod guestbook;
mod signing;
#[cfg(test)]
mod tests;
