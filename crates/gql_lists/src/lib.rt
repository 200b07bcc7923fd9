//! Laws on lists that no crate's subject owns: what stands at a place and what a write changes, what
//! a loop knows of the items that it has passed (all pass a test, one does, the first that gives
//! something), sets kept as lists, and orders in which what ties is the same. Definitions and lemmas
//! alone, over the standard library; every other crate may stand on it.
#![tactic(auto)]
