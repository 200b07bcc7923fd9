//! What a walk has been through: merged sets. One is looked up by a mark, and then compared with
//! each of its mark.
ghost use Rattle.std.specs.Prelude.{[], IsTrue, OnOk, ◌≡◌};
ghost use Rattle.std.specs.Option.{IfSome};
ghost use Rattle.gql_conflicts.specs.Merged.{IsLike};
ghost use Rattle.gql_conflicts.specs.Seen.{HasSeen, OnlyAdds};

use crate::merged::Merged;
use crate::visit::Visit;
use gql_base::Made;
use std::alloc::Global;
use std::collections::BTreeMap;

/// The visits of a walk, and of each mark the place of the latest.
#[derive(Drop)]
pub(crate) struct Seen<'a> {
    pub visits: Vec<Visit<'a>>,
    pub latest: BTreeMap<u64, usize>,
}

impl<'a> Seen<'a> {
    /// No visit.
    pub(crate) fn new(alloc: Global) -> Seen<'a>
        ensures { result.visits.items ≡ [] }
    {
        Seen {
            visits: Vec::new(alloc),
            latest: BTreeMap::new(alloc),
        }
    }

    /// Whether a merged set told nothing, if it was walked through.
    pub(crate) fn find(&self, merged: &Merged<'_>) -> Option<bool>
        ensures { IfSome result (HasSeen self.now.visits.items merged.now) }
    {
        let visits = self.visits.as_slice();
        match self.latest.get(&mark_of(merged)) {
            None => None,
            Some(latest) => found_from(visits, *latest, merged),
        }
    }

    /// Adds a visit.
    pub(crate) fn add(&mut self, merged: Merged<'a>, clean: bool) -> Made<()>
        ensures { OnOk result (OnlyAdds merged.entry clean self.old.visits.items
            self.new.visits.items) }
    {
        let before = self.latest.insert(mark_of(&merged), self.visits.len())?;
        self.visits.push(Visit {
            merged,
            clean,
            before,
        })?;
        Ok(())
    }
}

/// Whether a merged set told nothing, if it was walked through. The visits from a place on are
/// looked at, each before the one that names it.
fn found_from(visits: &[Visit<'_>], latest: usize, merged: &Merged<'_>) -> Option<bool>
    ensures { IfSome result (HasSeen visits.now merged.now) }
{
    let mut next = Some(latest);
    for _ in 0..visits.len() {
        let Some(place) = next else {
            return None;
        };
        if let Some(clean) = found_at(visits, place, merged) {
            return Some(clean);
        }
        next = before(visits, place);
    }
    None
}

/// Whether a merged set told nothing, if the visit at a place is its own.
fn found_at(visits: &[Visit<'_>], place: usize, merged: &Merged<'_>) -> Option<bool>
    ensures { IfSome result (HasSeen visits.now merged.now) }
{
    if place >= visits.len() {
        return None;
    }
    let visit = &visits[place];
    if !is_like(&visit.merged, merged) {
        return None;
    }
    Some(visit.clean)
}

/// True only where two merged sets are looked up alike.
fn is_like(one: &Merged<'_>, other: &Merged<'_>) -> bool
    ensures { IsTrue result → IsLike one.now other.now }
{
    one.left == other.left && one.ty == other.ty && one.sets.as_slice() == other.sets.as_slice()
}

/// The place of the visit before the one at a place.
fn before(visits: &[Visit<'_>], place: usize) -> Option<usize> {
    match visits.get(place) {
        None => None,
        Some(visit) => visit.before,
    }
}

/// The mark of a merged set: a number that others hardly ever have.
fn mark_of(merged: &Merged<'_>) -> u64 {
    let mut mark = mark_of_type(merged);
    for number in merged.sets.as_slice() {
        mark = mixed(mark, *number as u64);
    }
    mark
}

/// The mark of a merged set's type and of the levels that are left.
pub(crate) fn mark_of_type(merged: &Merged<'_>) -> u64 {
    of_bytes(merged.left as u64, merged.ty.as_bytes())
}

/// A mark with bytes mixed into it.
fn of_bytes(start: u64, bytes: &[u8]) -> u64 {
    let mut mark = start;
    for byte in bytes {
        mark = mixed(mark, u64::from(*byte));
    }
    mark
}

/// A mark with a number mixed into it.
fn mixed(mark: u64, number: u64) -> u64 {
    let mark = (mark ^ number).wrapping_mul(11_400_714_819_323_198_485);
    mark ^ (mark >> 32)
}
