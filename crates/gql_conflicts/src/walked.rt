//! What the exact walk has told and been through so far.
ghost use Rattle.std.specs.Prelude.{true, IsTrue, OnOk};
ghost use Rattle.std.specs.Option.{IfSome};
ghost use Rattle.gql_conflicts.specs.Merged.{merged_tells};
ghost use Rattle.gql_conflicts.specs.Walked.{Keeps, PairsUp, Walks};
ghost use Rattle.gql_conflicts.specs.declared.reader.Reader.{Reader as By};

use crate::clean_pairs::CleanPairs;
use crate::conflict::Conflict;
use crate::merged::Merged;
use crate::seen::Seen;
use gql_base::{Items, Made};

/// How many merged sets are walked through before pairs are kept and looked at. Documents of
/// practice have fewer, and pay nothing for them.
const LONG: usize = 1_000;

/// What a walk has told so far, what it has been through, and which sets it found to agree.
#[derive(Drop)]
pub(crate) struct Walked<'a> {
    pub found: Items<Conflict>,
    pub seen: Seen<'a>,
    pub pairs: CleanPairs<'a>,
}

impl<'a> Walked<'a> {
    /// Whether a merged set tells nothing, where it was met before. What it tells is told already.
    pub(crate) fn answer(&self, merged: &Merged<'_>) -> Option<bool>
        ensures { (reader : By) → IfSome result (λ clean.
            Walks reader (merged_tells reader merged.now) clean self.now self.now) }
    {
        if let Some(clean) = self.seen.find(merged) {
            return Some(clean);
        }
        None
    }

    /// True only where the walk is long, and each two sets of a merged set are known to agree: then
    /// it tells nothing.
    pub(crate) fn passes(&self, merged: &Merged<'_>) -> bool
        ensures { (reader : By) → IsTrue result
            → Walks reader (merged_tells reader merged.now) true self.now self.now }
    {
        if !self.is_long() {
            return false;
        }
        self.pairs.has_all(merged)
    }

    /// Remembers a merged set that is passed over, since it tells nothing.
    pub(crate) fn note(&mut self, merged: Merged<'a>) -> Made<()>
        ensures { (reader : By) → OnOk result (Keeps reader merged.entry true self.old self.new) }
    {
        self.seen.add(merged, true)?;
        Ok(())
    }

    /// Remembers a merged set that was walked through, and whether it told nothing.
    pub(crate) fn remember(&mut self, merged: Merged<'a>, clean: bool) -> Made<()>
        ensures { (reader : By) → OnOk result (Keeps reader merged.entry clean self.old self.new) }
    {
        self.pair_up(&merged, clean)?;
        self.seen.add(merged, clean)?;
        Ok(())
    }

    /// Keeps each two sets of a merged set that told nothing, where the walk is long.
    fn pair_up(&mut self, merged: &Merged<'a>, clean: bool) -> Made<()>
        ensures { OnOk result (PairsUp merged.entry.now clean self.old self.new) }
    {
        if !clean {
            return Ok(());
        }
        if !self.is_long() {
            return Ok(());
        }
        self.pairs.add_all(merged)?;
        Ok(())
    }

    /// True where so many merged sets were walked through that pairs are of use.
    fn is_long(&self) -> bool {
        self.seen.visits.len() >= LONG
    }
}
