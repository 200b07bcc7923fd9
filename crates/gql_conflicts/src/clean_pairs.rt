//! Pairs of sets that are known to agree. A merged set of which each two sets agree tells nothing,
//! so that there are no more merged sets to be walked through than there are such pairs.
ghost use Rattle.std.specs.Prelude.{◌≡◌, [], IsTrue, OnOk};
ghost use Rattle.gql_conflicts.specs.CleanPairs.{AddsPair, AddsPairs, HasAllPairs};
ghost use Rattle.gql_conflicts.specs.CleanPairs.{HasPair, HasPairsOf, IsPair};

use crate::clean_pair::CleanPair;
use crate::merged::Merged;
use crate::seen::mark_of_type;
use gql_base::Made;
use std::alloc::Global;
use std::collections::BTreeMap;

/// Pairs of sets, in both orders, and the place of each by its numbers and the mark of what it is
/// known for.
#[derive(Drop)]
pub(crate) struct CleanPairs<'a> {
    pub pairs: Vec<CleanPair<'a>>,
    pub places: BTreeMap<(usize, usize, u64), usize>,
}

impl<'a> CleanPairs<'a> {
    /// No pair.
    pub(crate) fn new(alloc: Global) -> CleanPairs<'a>
        ensures { result.pairs.items ≡ [] }
    {
        CleanPairs {
            pairs: Vec::new(alloc),
            places: BTreeMap::new(alloc),
        }
    }

    /// True only where each two sets of a merged set are known to agree. Pairs are looked up by the
    /// mark of the merged set's type.
    #[tactic(auto, using(crate::proofs::BelowLemmas::each_more, crate::proofs::BelowLemmas::each_passed, crate::proofs::BelowLemmas::none_before))]
    pub(crate) fn has_all(&self, merged: &Merged<'_>) -> bool
        ensures { IsTrue result → HasAllPairs self.now.pairs.items merged.now }
    {
        let mark = mark_of_type(merged);
        for one in merged.sets.as_slice() {
            if !self.has_all_of(merged, *one, mark) {
                return false;
            }
        }
        true
    }

    /// True only where a set is known to agree with each set of a merged set.
    #[tactic(auto, using(crate::proofs::BelowLemmas::each_more, crate::proofs::BelowLemmas::each_passed, crate::proofs::BelowLemmas::none_before))]
    fn has_all_of(&self, merged: &Merged<'_>, one: usize, mark: u64) -> bool
        ensures { IsTrue result → HasPairsOf self.now.pairs.items merged.now one }
    {
        for other in merged.sets.as_slice() {
            if !self.has(merged, one, *other, mark) {
                return false;
            }
        }
        true
    }

    /// True only where two sets are known to agree beneath a merged set's type.
    fn has(&self, merged: &Merged<'_>, one: usize, other: usize, mark: u64) -> bool
        ensures { IsTrue result → HasPair self.now.pairs.items merged.now one other }
    {
        let pairs = self.pairs.as_slice();
        match self.places.get(&(one, other, mark)) {
            None => false,
            Some(place) => has_at(pairs, *place, merged, one, other),
        }
    }

    /// Adds each two sets of a merged set.
    pub(crate) fn add_all(&mut self, merged: &Merged<'a>) -> Made<()>
        ensures { OnOk result (AddsPairs merged.entry.now self.old.pairs.items
            self.new.pairs.items) }
    {
        let mark = mark_of_type(merged);
        for place in 0..merged.sets.len() {
            self.add_all_of(merged, place, mark)?;
        }
        Ok(())
    }

    /// Adds a set, by its place, with each set of a merged set.
    fn add_all_of(&mut self, merged: &Merged<'a>, one: usize, mark: u64) -> Made<()>
        ensures { OnOk result (AddsPairs merged.entry.now self.old.pairs.items
            self.new.pairs.items) }
    {
        for place in 0..merged.sets.len() {
            self.add(merged, one, place, mark)?;
        }
        Ok(())
    }

    /// Adds two sets of a merged set, by their places, unless they are known to agree.
    fn add(&mut self, merged: &Merged<'a>, one: usize, other: usize, mark: u64) -> Made<()>
        ensures { OnOk result (AddsPairs merged.entry.now self.old.pairs.items
            self.new.pairs.items) }
    {
        let sets = merged.sets.as_slice();
        if one >= sets.len() {
            return Ok(());
        }
        if other >= sets.len() {
            return Ok(());
        }
        self.add_pair(merged, sets[one], sets[other], mark)?;
        Ok(())
    }

    /// Adds two sets, unless they are known to agree.
    fn add_pair(&mut self, merged: &Merged<'a>, one: usize, other: usize, mark: u64) -> Made<()>
        ensures { OnOk result (AddsPair merged.entry.now one other self.old.pairs.items
            self.new.pairs.items) }
    {
        if self.has(merged, one, other, mark) {
            return Ok(());
        }
        let place = self.pairs.len();
        self.places.insert((one, other, mark), place)?;
        self.pairs.push(CleanPair {
            left: merged.left,
            ty: merged.ty,
            one,
            other,
        })?;
        Ok(())
    }
}

/// True only where the pair at a place is of these sets, beneath a merged set's type.
fn has_at(
    pairs: &[CleanPair<'_>],
    place: usize,
    merged: &Merged<'_>,
    one: usize,
    other: usize,
) -> bool
    ensures { IsTrue result → HasPair pairs.now merged.now one other }
{
    if place >= pairs.len() {
        return false;
    }
    is_pair(&pairs[place], merged, one, other)
}

/// True only where a pair is of these sets, beneath a merged set's type.
fn is_pair(pair: &CleanPair<'_>, merged: &Merged<'_>, one: usize, other: usize) -> bool
    ensures { IsTrue result → IsPair merged.now one other pair.now }
{
    pair.left == merged.left && pair.ty == merged.ty && pair.one == one && pair.other == other
}
