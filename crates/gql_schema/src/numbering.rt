//! A walk that numbers the places of a graph so that each stands above those to which it leads;
//! places that lead to each other have one number. These are the strongly connected components of
//! Tarjan's walk ("Depth-first search and linear graph algorithms", 1972). No contract rests on the
//! numbers: who takes them tests them first.
use gql_base::{Items, Made};
use std::alloc::Global;

/// The state of the walk. Times and numbers count from 1, and 0 stands for none.
#[derive(Drop)]
struct Walk {
    /// When each place was entered.
    entered: Vec<usize>,
    /// The earliest entered place that each is known to lead to, among those without a number.
    lowest: Vec<usize>,
    numbers: Vec<usize>,
    /// The places that were entered and have no number yet.
    open: Vec<usize>,
    /// The places on the way from the root, each with how many of those that it leads to were looked
    /// at.
    way: Vec<(usize, usize)>,
    time: usize,
    number: usize,
}

/// A number from 1 for each place of a graph, whose lists tell to what places each leads: none leads
/// to a higher number, and places that lead to each other have one. Nothing is proved of the numbers,
/// so who takes them tests them first. A place past the end counts for nothing. Only out of memory
/// fails.
pub fn walk_numbers(alloc: Global, graph: &[Items<usize>]) -> Made<Vec<usize>> {
    let most = most_steps(graph);
    let mut walk = Walk::new(alloc, graph.len())?;
    for root in 0..graph.len() {
        walk.visit(graph, most, root)?;
    }
    let Walk { numbers, .. } = walk;
    Ok(numbers)
}

/// As many steps as a walk takes: one for each place, and one for each step between two.
fn most_steps(graph: &[Items<usize>]) -> usize {
    let mut most = graph.len();
    for list in graph {
        most = most.saturating_add(list.len());
    }
    most
}

fn zeros(alloc: Global, count: usize) -> Made<Vec<usize>> {
    let mut list = Vec::with_capacity(alloc, count)?;
    for _ in 0..count {
        list.push(0)?;
    }
    Ok(list)
}

/// The item at a place, and 0 past the end.
fn read(list: &[usize], place: usize) -> usize {
    if place < list.len() { list[place] } else { 0 }
}

/// Writes the item at a place, and past the end nothing.
fn write(list: &mut [usize], place: usize, item: usize) {
    if place < list.len() {
        list[place] = item;
    }
}

impl Walk {
    fn new(alloc: Global, count: usize) -> Made<Walk> {
        Ok(Walk {
            entered: zeros(alloc, count)?,
            lowest: zeros(alloc, count)?,
            numbers: zeros(alloc, count)?,
            open: Vec::new(alloc),
            way: Vec::new(alloc),
            time: 0,
            number: 0,
        })
    }

    /// Enters a place that wasn't entered, and leaves it once all that it leads to has been left.
    fn visit(&mut self, graph: &[Items<usize>], most: usize, root: usize) -> Made<()> {
        if read(self.entered.as_slice(), root) == 0 {
            self.enter(root)?;
        }
        for _ in 0..most {
            match self.way.pop() {
                Some((place, next)) => self.step(graph, place, next)?,
                None => return Ok(()),
            }
        }
        Ok(())
    }

    fn enter(&mut self, place: usize) -> Made<()> {
        self.time = self.time.saturating_add(1);
        write(self.entered.as_mut_slice(), place, self.time);
        write(self.lowest.as_mut_slice(), place, self.time);
        self.open.push(place)?;
        self.way.push((place, 0))?;
        Ok(())
    }

    /// Looks at the next place to which the last one on the way leads, or leaves it.
    fn step(&mut self, graph: &[Items<usize>], place: usize, next: usize) -> Made<()> {
        match led_at(graph, place, next) {
            Some(led) => {
                self.way.push((place, next.saturating_add(1)))?;
                self.look_at(place, led)
            }
            None => {
                self.leave(place);
                Ok(())
            }
        }
    }

    fn look_at(&mut self, place: usize, led: usize) -> Made<()> {
        let time = read(self.entered.as_slice(), led);
        if time == 0 {
            return self.enter(led);
        }
        if read(self.numbers.as_slice(), led) == 0 {
            self.lower(place, time);
        }
        Ok(())
    }

    fn lower(&mut self, place: usize, time: usize) {
        if time < read(self.lowest.as_slice(), place) {
            write(self.lowest.as_mut_slice(), place, time);
        }
    }

    /// Numbers the places that lead to each other, once the first of them is left, and else tells the
    /// place before on the way.
    fn leave(&mut self, place: usize) {
        let lowest = read(self.lowest.as_slice(), place);
        if lowest == read(self.entered.as_slice(), place) {
            self.number = self.number.saturating_add(1);
            self.close(place);
        } else if let Some(before) = self.way.last() {
            let (before, _) = *before;
            self.lower(before, lowest);
        }
    }

    /// Gives the number to the open places from this one on.
    fn close(&mut self, place: usize) {
        while let Some(last) = self.open.pop() {
            write(self.numbers.as_mut_slice(), last, self.number);
            if last == place {
                return;
            }
        }
    }
}

fn led_at(graph: &[Items<usize>], place: usize, next: usize) -> Option<usize> {
    graph.get(place)?.as_slice().get(next).copied()
}
