//! A proposal of classes, by rounds: the fields are put into the order of their classes and keys,
//! and the sets of those that have one class and key become one, until no round makes more so.
//! Nothing is proved of a proposal, since it is tested.

use crate::alike::alike;
use crate::entry::Entry;
use crate::heads::join;
use crate::marks::mark_of;
use crate::proposal::Proposal;
use crate::survey::{Spot, Survey};
use gql_base::Made;
use gql_doc::ExecutableDocument;
use std::alloc::Global;

/// How many rounds are made at most.
const ROUNDS: usize = 100;

/// A field by the mark of its class and key, its number of arguments, and its place among the fields.
/// So the field that stands for those of a mark has the fewest arguments, and a comparison with it
/// costs no more than the other field has.
type Marked = (u64, usize, usize);

/// What a round finds.
#[derive(Clone, Copy, PartialEq, Eq)]
enum Round {
    /// Two fields of one class and key don't ask the same.
    Unlike,
    /// Sets became one.
    Joined,
    /// All sets that are to be one are so.
    Still,
}

/// Classes for the sets of a document, unless two fields of one key don't ask the same there.
pub(crate) fn propose<'a>(
    alloc: Global,
    doc: &'a ExecutableDocument,
    survey: &mut Survey<'a>,
) -> Made<Option<Proposal<'a>>> {
    for _ in 0..ROUNDS {
        let order = in_order(alloc, survey)?;
        match make_round(alloc, survey, order.as_slice())? {
            Round::Unlike => return Ok(None),
            Round::Joined => (),
            Round::Still => {
                let proposal = proposal_of(alloc, doc.fragments.len(), survey, order.as_slice())?;
                return Ok(Some(proposal));
            }
        }
    }
    Ok(None)
}

/// The fields in the order of the marks of their classes and keys.
fn in_order(alloc: Global, survey: &mut Survey<'_>) -> Made<Vec<Marked>> {
    let mut order = Vec::with_capacity(alloc, survey.spots.len())?;
    for place in 0..survey.spots.len() {
        order.push((mark_at(survey, place), arguments_at(survey, place), place))?;
    }
    order.sort_unstable();
    Ok(order)
}

/// The field at a place, if there is one.
fn spot_at<'a>(survey: &Survey<'a>, place: usize) -> Option<Spot<'a>> {
    match survey.spots.get(place) {
        Some(spot) => Some(*spot),
        None => None,
    }
}

fn mark_at(survey: &mut Survey<'_>, place: usize) -> u64 {
    match spot_at(survey, place) {
        None => 0,
        Some(spot) => {
            let class = survey.head(spot.around);
            mark_of(class, spot.field.node.response_key().node.as_str())
        }
    }
}

/// How many arguments a field has.
fn arguments_at(survey: &Survey<'_>, place: usize) -> usize {
    match spot_at(survey, place) {
        None => 0,
        Some(spot) => spot.field.node.arguments.len(),
    }
}

/// Compares neighbours of one mark, and makes their sets one.
fn make_round(alloc: Global, survey: &mut Survey<'_>, order: &[Marked]) -> Made<Round> {
    let mut found = Round::Still;
    for next in 1..order.len() {
        let (mark, _, place) = order[next - 1];
        let (other_mark, _, other_place) = order[next];
        if mark == other_mark {
            match compared(alloc, survey, place, other_place)? {
                Round::Unlike => return Ok(Round::Unlike),
                Round::Joined => found = Round::Joined,
                Round::Still => (),
            }
        }
    }
    Ok(found)
}

/// Compares two fields. Where their keys or classes differ although their marks don't, they count
/// as unlike.
fn compared(
    alloc: Global,
    survey: &mut Survey<'_>,
    place: usize,
    other_place: usize,
) -> Made<Round> {
    match (spot_at(survey, place), spot_at(survey, other_place)) {
        (Some(one), Some(other)) => compared_spots(alloc, survey, &one, &other),
        _ => Ok(Round::Unlike),
    }
}

fn compared_spots(
    alloc: Global,
    survey: &mut Survey<'_>,
    one: &Spot<'_>,
    other: &Spot<'_>,
) -> Made<Round> {
    if survey.head(one.around) != survey.head(other.around) || !has_key_of(one, other) {
        return Ok(Round::Unlike);
    }
    if !alike(alloc, one.field, other.field)? {
        return Ok(Round::Unlike);
    }
    if join(survey.heads.as_mut_slice(), one.inner, other.inner) {
        Ok(Round::Joined)
    } else {
        Ok(Round::Still)
    }
}

fn has_key_of(one: &Spot<'_>, other: &Spot<'_>) -> bool {
    one.field.node.response_key().node.as_str() == other.field.node.response_key().node.as_str()
}

/// The classes as they came to stand, where the first field of each mark has the entry.
fn proposal_of<'a>(
    alloc: Global,
    fragments: usize,
    survey: &mut Survey<'a>,
    order: &[Marked],
) -> Made<Proposal<'a>> {
    let hints = vec![in alloc; 0; survey.spots.len()]?;
    let mut proposal = Proposal {
        classes: Vec::new(alloc),
        roots: Vec::new(alloc),
        entries: Vec::new(alloc),
        hints,
    };
    for place in 0..fragments {
        proposal.classes.push(survey.head(place))?;
    }
    add_roots(survey, &mut proposal)?;
    add_entries(survey, order, &mut proposal)?;
    Ok(proposal)
}

fn add_roots<'a>(survey: &mut Survey<'a>, proposal: &mut Proposal<'a>) -> Made<()> {
    for place in 0..survey.roots.len() {
        let root = root_at(survey, place);
        proposal.roots.push(survey.head(root))?;
    }
    Ok(())
}

fn root_at(survey: &Survey<'_>, place: usize) -> usize {
    match survey.roots.get(place) {
        Some(root) => *root,
        None => 0,
    }
}

fn add_entries<'a>(
    survey: &mut Survey<'a>,
    order: &[Marked],
    proposal: &mut Proposal<'a>,
) -> Made<()> {
    let mut last = None;
    for marked in order {
        let (mark, _, place) = *marked;
        if last != Some(mark) {
            add_entry(survey, place, proposal)?;
        }
        last = Some(mark);
        hint_at(proposal, place);
    }
    Ok(())
}

fn add_entry<'a>(survey: &mut Survey<'a>, place: usize, proposal: &mut Proposal<'a>) -> Made<()> {
    if let Some(spot) = spot_at(survey, place) {
        let class = survey.head(spot.around);
        let beneath = survey.head(spot.inner);
        proposal.entries.push(Entry {
            class,
            field: spot.field,
            beneath,
        })?;
    }
    Ok(())
}

/// The field at a place has the entry that was added last.
fn hint_at(proposal: &mut Proposal<'_>, place: usize) {
    let entries = proposal.entries.len();
    if place < proposal.hints.len() && 0 < entries {
        proposal.hints[place] = entries - 1;
    }
}
