//! Fields that can't be merged with the first one of their key.
ghost use Rattle.std.specs.Prelude.{◌≡◌, ◌++◌, IfOk, OnOk, map, string_bytes};
ghost use Rattle.gql_fields.specs.Terms.{terms_of};
ghost use Rattle.gql_rules.specs.BreachTexts.{conflict_text};
ghost use Rattle.gql_rules.specs.Adds.{Adds};
ghost use Rattle.gql_rules.specs.FieldMerging.{IsConflicting, conflict_breach, rooted_in};
ghost use Rattle.gql_rules.specs.Nesting.{IsWithinDepth, NestsWithin};
ghost use Rattle.gql_conflicts.specs.Rooted.{rooted_of};

use gql_base::{Items, Made};
use gql_conflicts::{Conflict, RootedTypes, conflicts_in_nested};
use gql_doc::ExecutableDocument;
use gql_fields::{Breach, BreachKind, Site, breach_of};
use std::alloc::Global;

/// Tells of each field that can't be merged with the first one of its key, at every depth. The
/// document lies within some limit on the depth.
pub fn tell_conflicts(
    alloc: Global,
    site: &Site<'_>,
    doc: &ExecutableDocument,
    found: &mut Items<Breach>,
) -> Made<()>
    requires { IsWithinDepth doc.now }
    ensures { OnOk result (Adds (IsConflicting (terms_of site.now) doc.now) found.old found.new) }
{
    tell_nested(alloc, site, doc, usize::MAX, found)
}

/// The same of a document for whose sets so many levels suffice.
#[tactic(auto, using(crate::proofs::MergingLemmas::all_conflicts))]
fn tell_nested(
    alloc: Global,
    site: &Site<'_>,
    doc: &ExecutableDocument,
    levels: usize,
    found: &mut Items<Breach>,
) -> Made<()>
    requires { NestsWithin doc.now levels }
    ensures { OnOk result (Adds (IsConflicting (terms_of site.now) doc.now) found.old found.new) }
{
    let conflicts = conflicts_in_nested(alloc, &rooted(site), doc, levels)?;
    tell_each(alloc, conflicts.as_slice(), found)
}

fn rooted<'a>(site: &Site<'a>) -> RootedTypes<'a>
    ensures { rooted_of result ≡ rooted_in (terms_of site.entry.now) }
{
    RootedTypes {
        types: site.types,
        query: site.query,
        mutation: site.mutation,
        subscription: site.subscription,
        entities: site.entities,
    }
}

fn tell_each(alloc: Global, conflicts: &[Conflict], found: &mut Items<Breach>) -> Made<()>
    ensures { OnOk result (found.new ≡ found.old ++ map conflict_breach conflicts.now) }
{
    for conflict in conflicts {
        found.push(conflicting_field(alloc, conflict)?)?;
    }
    Ok(())
}

/// A field that can't be merged.
fn conflicting_field(alloc: Global, conflict: &Conflict) -> Made<Breach>
    ensures { IfOk result (λ made. made ≡ conflict_breach conflict.now) }
{
    let key = conflict.key.as_str();
    let text = conflict_message(alloc, key)?;
    breach_of(alloc, conflict.pos, BreachKind::Conflict, key, text)
}

#[tactic(auto, unfolding(crate::specs::BreachTexts::conflict_text))]
fn conflict_message(alloc: Global, key: &str) -> Made<String>
    ensures { IfOk result (λ text. string_bytes text ≡ conflict_text key.now) }
{
    format!(in alloc; "Fields \"{key}\" conflict.")
}
