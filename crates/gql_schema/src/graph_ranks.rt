//! Numbers of the places of a graph, whose lists tell to what places each leads.
ghost use Rattle.std.specs.Prelude.{◌≡◌, ◌<◌, true, length, IfOk};
ghost use Rattle.gql_schema.specs.GraphRanks.{AreRanks, all_at_most, led_to, rank_of};

use crate::numbering::walk_numbers;
use gql_base::{Items, Made};
use std::alloc::Global;

/// A number for each place of a graph: no place leads to one of a higher number. Where a walk finds
/// such numbers, places that lead to each other have one, and others have others; else all have 0.
#[tactic(auto, using(crate::proofs::GraphRankLemmas::ranked_none))]
pub fn component_numbers(alloc: Global, graph: &[Items<usize>]) -> Made<Vec<usize>>
    ensures { IfOk result (λ ranks. AreRanks graph.now ranks.items) }
{
    let numbers = walk_numbers(alloc, graph)?;
    if are_ranks(graph, numbers.as_slice()) {
        Ok(numbers)
    } else {
        Ok(Vec::new(alloc))
    }
}

/// The number of a place, and 0 where there is none.
pub fn rank_at(ranks: &[usize], place: usize) -> usize
    ensures { result ≡ rank_of ranks.now place }
{
    if place < ranks.len() { ranks[place] } else { 0 }
}

/// True where no place leads to one of a higher number.
#[tactic(auto, using(crate::proofs::GraphRankLemmas::none_tested, crate::proofs::GraphRankLemmas::tested_more))]
fn are_ranks(graph: &[Items<usize>], ranks: &[usize]) -> bool
    ensures { result ≡ true → AreRanks graph.now ranks.now }
{
    for place in 0..graph.len() {
        let own = rank_at(ranks, place);
        if !leads_at_most(graph, ranks, place, own) {
            return false;
        }
    }
    true
}

/// True exactly where a place leads to places of at most this number.
pub fn leads_at_most(graph: &[Items<usize>], ranks: &[usize], place: usize, most: usize) -> bool
    requires { place < length graph.now }
    ensures { result ≡ all_at_most ranks.now most (led_to graph.now place) }
{
    are_at_most(graph[place].as_slice(), ranks, most)
}

fn are_at_most(places: &[usize], ranks: &[usize], most: usize) -> bool
    ensures { result ≡ all_at_most ranks.now most places.now }
{
    places.iter().all(|place| rank_at(ranks, *place) <= most)
}
