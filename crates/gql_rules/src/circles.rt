//! Which places of a graph reach themselves. Two walks over the ways between places of one number
//! tell this of all members of circles at once.
ghost use Rattle.std.specs.Prelude.{◌≡◌, ◌++◌, ◌<◌, true, length, IfOk, OnOk};
ghost use Rattle.std.specs.Bool.{Decides};
ghost use Rattle.std.specs.List.{flat_map};
ghost use Rattle.gql_rules.specs.Circles.{AreHeads, AreOfRank, AreTold, AreTurned, IsInner};
ghost use Rattle.gql_rules.specs.Circles.{AreOnCircles, with_way};
ghost use Rattle.gql_rules.specs.Reaching.{AreBelow, AreWithin, Reaches, is_in, led_to};
ghost use Rattle.gql_schema.specs.GraphRanks.{AreRanks, rank_of};

use crate::reaching::{marks_from, reaches_itself};
use gql_base::{Items, Made};
use gql_schema::{component_numbers, leads_at_most, rank_at};
use std::alloc::Global;

/// The places to which the head of their component leads, and those that lead to it or are it.
#[derive(Drop)]
struct Circles {
    behind: Vec<bool>,
    before: Vec<bool>,
}

/// For each place of a graph, whether it reaches itself, in one step or more.
pub fn circular_places(alloc: Global, graph: &[Items<usize>]) -> Made<Vec<bool>>
    requires { AreWithin graph.now }
    ensures { IfOk result (λ circular. AreTold graph.now (length graph.now) circular.items) }
{
    let ranks = component_numbers(alloc, graph)?;
    let circles = circles_of(alloc, graph, ranks.as_slice())?;
    tell_places(alloc, graph, ranks.as_slice(), &circles)
}

#[tactic(auto, using(crate::proofs::CircleLemmas::none_told, crate::proofs::CircleLemmas::told_more))]
fn tell_places(
    alloc: Global,
    graph: &[Items<usize>],
    ranks: &[usize],
    circles: &Circles,
) -> Made<Vec<bool>>
    requires within { AreWithin graph.now }
    requires ranks { AreRanks graph.now ranks.now }
    requires circles { AreOnCircles graph.now circles.now.behind.items circles.now.before.items }
    ensures { IfOk result (λ circular. AreTold graph.now (length graph.now) circular.items) }
{
    let mut circular = Vec::with_capacity(alloc, graph.len())?;
    for place in 0..graph.len() {
        circular.push(is_circular(alloc, graph, ranks, circles, place)?)?;
    }
    Ok(circular)
}

/// True exactly where a place reaches itself. It does where it is on a circle, and does not where
/// it leads to lower numbers alone; only else is there a walk.
#[tactic(auto, using(crate::proofs::RankLemmas::falls_free, crate::proofs::CircleLemmas::told_on_circle))]
fn is_circular(
    alloc: Global,
    graph: &[Items<usize>],
    ranks: &[usize],
    circles: &Circles,
    place: usize,
) -> Made<bool>
    requires inside { place < length graph.now }
    requires within { AreWithin graph.now }
    requires ranks { AreRanks graph.now ranks.now }
    requires circles { AreOnCircles graph.now circles.now.behind.items circles.now.before.items }
    ensures { IfOk result (λ reaches. Decides reaches (Reaches graph.now place place)) }
{
    if is_on_circle(graph, circles, place) {
        return Ok(true);
    }
    let own = rank_at(ranks, place);
    if own > 0 && leads_at_most(graph, ranks, place, own - 1) {
        return Ok(false);
    }
    reaches_itself(alloc, graph, place)
}

/// True where a place has both marks; then it reaches itself.
fn is_on_circle(graph: &[Items<usize>], circles: &Circles, place: usize) -> bool
    requires inside { place < length graph.now }
    requires circles { AreOnCircles graph.now circles.now.behind.items circles.now.before.items }
    ensures { result ≡ true → Reaches graph.now place place }
{
    let _ = graph;
    circles.behind[place] && circles.before[place]
}

/// The marks of all components. Each has one head, whose ways to places of its number are followed
/// forwards and backwards.
fn circles_of(alloc: Global, graph: &[Items<usize>], ranks: &[usize]) -> Made<Circles>
    requires { AreWithin graph.now }
    ensures { IfOk result
        (λ circles. AreOnCircles graph.now circles.behind.items circles.before.items) }
{
    let table = head_table(alloc, ranks)?;
    let heads = heads_of(alloc, graph.len(), ranks, table.as_slice())?;
    let inner = inner_graph(alloc, graph, ranks)?;
    let starts = led_from(alloc, inner.as_slice(), heads.as_slice())?;
    let turned = turned_graph(alloc, inner.as_slice())?;
    let behind = marks_from(alloc, inner.as_slice(), starts.as_slice())?;
    let before = marks_from(alloc, turned.as_slice(), heads.as_slice())?;
    Ok(Circles { behind, before })
}

/// A place for each number that places have. Any table will do, since heads are told by it.
fn head_table(alloc: Global, ranks: &[usize]) -> Made<Vec<usize>> {
    let mut table = vec![in alloc; 0; ranks.len()]?;
    for place in 0..ranks.len() {
        put_head(table.as_mut_slice(), ranks[place], place);
    }
    Ok(table)
}

fn put_head(table: &mut [usize], number: usize, place: usize) {
    if number < table.len() {
        table[number] = place;
    }
}

/// The places that stand in the table at their own number.
#[tactic(auto, using(crate::proofs::CircleLemmas::no_heads))]
fn heads_of(alloc: Global, count: usize, ranks: &[usize], table: &[usize]) -> Made<Items<usize>>
    ensures { IfOk result (λ heads. AreHeads count ranks.now table.now heads) }
{
    let mut heads = Items::new(alloc);
    for place in 0..count {
        add_head(count, ranks, table, place, &mut heads)?;
    }
    Ok(heads)
}

#[tactic(auto, using(crate::proofs::CircleLemmas::one_head))]
fn add_head(
    count: usize,
    ranks: &[usize],
    table: &[usize],
    place: usize,
    heads: &mut Items<usize>,
) -> Made<()>
    requires below { place < count }
    requires heads { AreHeads count ranks.now table.now heads.old }
    ensures { OnOk result (AreHeads count ranks.now table.now heads.new) }
{
    let _ = count;
    if rank_at(table, rank_at(ranks, place)) == place {
        heads.push(place)?;
    }
    Ok(())
}

/// The ways of a graph between places of one number.
#[tactic(auto, using(crate::proofs::CircleLemmas::no_inner, crate::proofs::CircleLemmas::inner_more))]
fn inner_graph(alloc: Global, graph: &[Items<usize>], ranks: &[usize]) -> Made<Items<Items<usize>>>
    ensures { IfOk result (λ inner. IsInner graph.now ranks.now (length graph.now) inner) }
{
    let mut inner = Items::with_capacity(alloc, graph.len())?;
    for place in 0..graph.len() {
        inner.push(inner_places(alloc, graph, ranks, place)?)?;
    }
    Ok(inner)
}

/// The places of its own number to which a place leads.
fn inner_places(
    alloc: Global,
    graph: &[Items<usize>],
    ranks: &[usize],
    place: usize,
) -> Made<Items<usize>>
    requires { place < length graph.now }
    ensures { IfOk result (λ kept. AreOfRank (led_to graph.now place) ranks.now
        (rank_of ranks.now place) kept) }
{
    of_rank(alloc, graph[place].as_slice(), ranks, rank_at(ranks, place))
}

/// Those of some places that have a number.
#[tactic(auto, using(crate::proofs::CircleLemmas::none_of_rank))]
fn of_rank(alloc: Global, places: &[usize], ranks: &[usize], rank: usize) -> Made<Items<usize>>
    ensures { IfOk result (λ kept. AreOfRank places.now ranks.now rank kept) }
{
    let mut kept = Items::new(alloc);
    for place in places {
        add_of_rank(places, ranks, rank, *place, &mut kept)?;
    }
    Ok(kept)
}

#[tactic(auto, using(crate::proofs::CircleLemmas::one_of_number))]
fn add_of_rank(
    places: &[usize],
    ranks: &[usize],
    rank: usize,
    place: usize,
    kept: &mut Items<usize>,
) -> Made<()>
    requires among { is_in place places.now ≡ true }
    requires kept { AreOfRank places.now ranks.now rank kept.old }
    ensures { OnOk result (AreOfRank places.now ranks.now rank kept.new) }
{
    let _ = places;
    if rank_at(ranks, place) == rank {
        kept.push(place)?;
    }
    Ok(())
}

/// The places to which some lead.
fn led_from(alloc: Global, graph: &[Items<usize>], places: &[usize]) -> Made<Items<usize>>
    requires { AreBelow (length graph.now) places.now }
    ensures { IfOk result (λ led. led ≡ flat_map (led_to graph.now) places.now) }
{
    let mut led = Items::new(alloc);
    for place in places {
        let more = Items::from_slice(alloc, graph[*place].as_slice())?;
        led.append(more)?;
    }
    Ok(led)
}

/// The ways of a graph turned round.
fn turned_graph(alloc: Global, graph: &[Items<usize>]) -> Made<Items<Items<usize>>>
    requires { AreWithin graph.now }
    ensures { IfOk result (λ turned. AreTurned graph.now (length graph.now) turned) }
{
    let mut turned = wayless(alloc, graph)?;
    for from in 0..graph.len() {
        turn_ways(graph, from, &mut turned)?;
    }
    Ok(turned)
}

/// A graph of as many places, of which none leads anywhere.
#[tactic(auto, using(crate::proofs::CircleLemmas::none_turned, crate::proofs::CircleLemmas::wayless_more))]
fn wayless(alloc: Global, graph: &[Items<usize>]) -> Made<Items<Items<usize>>>
    ensures { IfOk result (λ turned. AreTurned graph.now (length graph.now) turned) }
{
    let mut turned = Items::with_capacity(alloc, graph.len())?;
    for _place in 0..graph.len() {
        turned.push(Items::new(alloc))?;
    }
    Ok(turned)
}

/// Turns the ways from a place.
fn turn_ways(graph: &[Items<usize>], from: usize, turned: &mut Items<Items<usize>>) -> Made<()>
    requires inside { from < length graph.now }
    requires within { AreWithin graph.now }
    requires turned { AreTurned graph.now (length graph.now) turned.old }
    ensures { OnOk result (AreTurned graph.now (length graph.now) turned.new) }
{
    for to in graph[from].as_slice() {
        turn_way(from, *to, turned)?;
    }
    Ok(())
}

fn turn_way(from: usize, to: usize, turned: &mut Items<Items<usize>>) -> Made<()>
    requires { to < length turned.old }
    ensures { OnOk result (turned.new ≡ with_way turned.old to from) }
{
    turned.at_mut(to).push(from)
}
