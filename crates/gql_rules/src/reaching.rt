//! Which places of a graph reach themselves. A walk enters each place once.
ghost use Rattle.std.specs.Prelude.{◌≡◌, ◌<◌, [], ℕ, Bool, Some, true, length, slice_get, IfOk};
ghost use Rattle.std.specs.Prelude.{OnOk};
ghost use Rattle.std.specs.Bool.{Decides};
ghost use Rattle.gql_rules.specs.Reaching.{AreBelow, AreReached, AreWithin, Marks, Reaches, is_in};
ghost use Rattle.gql_rules.specs.Reaching.{ReachesFrom, with_number, with_numbers};

use gql_base::{Items, Made};
use std::alloc::Global;

/// True exactly where a place of the graph reaches itself, in one step or more.
pub fn reaches_itself(alloc: Global, graph: &[Items<usize>], start: usize) -> Made<bool>
    requires inside { start < length graph.now }
    requires within { AreWithin graph.now }
    ensures { IfOk result (λ reaches. Decides reaches (Reaches graph.now start start)) }
{
    let mut marks = vec![in alloc; false; graph.len()]?;
    marks_itself(alloc, graph, start, marks.as_mut_slice())
}

/// The same, where no place is marked yet.
fn marks_itself(
    alloc: Global,
    graph: &[Items<usize>],
    start: usize,
    marks: &mut [bool],
) -> Made<bool>
    requires inside { start < length graph.now }
    requires within { AreWithin graph.now }
    requires long { length marks.old ≡ length graph.now }
    requires none { Marks marks.old [] }
    ensures { IfOk result (λ reaches. Decides reaches (Reaches graph.now start start)) }
{
    walk_from(alloc, graph, graph[start].as_slice(), marks)?;
    Ok(marks[start])
}

/// The places that are reached from some, and these, each once.
pub fn reached_from(alloc: Global, graph: &[Items<usize>], starts: &[usize]) -> Made<Items<usize>>
    requires starts { AreBelow (length graph.now) starts.now }
    requires within { AreWithin graph.now }
    ensures { IfOk result (λ reached. AreReached graph.now starts.now reached) }
{
    let mut marks = vec![in alloc; false; graph.len()]?;
    walk_from(alloc, graph, starts, marks.as_mut_slice())
}

/// Beside each place of the graph, whether it is reached from some or among them.
pub fn marks_from(alloc: Global, graph: &[Items<usize>], starts: &[usize]) -> Made<Vec<bool>>
    requires starts { AreBelow (length graph.now) starts.now }
    requires within { AreWithin graph.now }
    ensures long { IfOk result (λ marks. length marks.items ≡ length graph.now) }
    ensures marks { IfOk result (λ marks. (place : ℕ) (mark : Bool)
        → slice_get marks.items place ≡ Some mark
        → Decides mark (ReachesFrom graph.now starts.now place)) }
{
    let mut marks = vec![in alloc; false; graph.len()]?;
    walk_from(alloc, graph, starts, marks.as_mut_slice())?;
    Ok(marks)
}

/// The same, where no place is marked yet. Those that are reached are marked.
fn walk_from(
    alloc: Global,
    graph: &[Items<usize>],
    starts: &[usize],
    marks: &mut [bool],
) -> Made<Items<usize>>
    requires starts { AreBelow (length graph.now) starts.now }
    requires within { AreWithin graph.now }
    requires long { length marks.old ≡ length graph.now }
    requires none { Marks marks.old [] }
    ensures reached { IfOk result (λ reached. AreReached graph.now starts.now reached) }
    ensures marks { IfOk result (λ reached. Marks marks.new reached) }
{
    let mut reached = Items::new(alloc);
    add_all(starts, marks, &mut reached)?;
    let mut next = 0;
    'walk: while next < reached.len() {
        let place = reached.as_slice()[next];
        add_all(graph[place].as_slice(), marks, &mut reached)?;
        next += 1;
    }
    Ok(reached)
}

/// Adds the places that aren't among those reached, and marks them.
fn add_all(places: &[usize], marks: &mut [bool], reached: &mut Items<usize>) -> Made<()>
    requires within { (k : ℕ) → is_in k places.now ≡ true → k < length marks.old }
    requires marks { Marks marks.old reached.old }
    ensures reached { OnOk result (reached.new ≡ with_numbers reached.old places.now) }
    ensures marks { OnOk result (Marks marks.new reached.new) }
{
    for place in places {
        add_one(*place, marks, reached)?;
    }
    Ok(())
}

#[tactic(auto, using(crate::proofs::MarkLemmas::marking))]
fn add_one(place: usize, marks: &mut [bool], reached: &mut Items<usize>) -> Made<()>
    requires within { place < length marks.old }
    requires marks { Marks marks.old reached.old }
    ensures reached { OnOk result (reached.new ≡ with_number reached.old place) }
    ensures marks { OnOk result (Marks marks.new reached.new) }
{
    if marks[place] {
        return Ok(());
    }
    reached.push(place)?;
    marks[place] = true;
    Ok(())
}
