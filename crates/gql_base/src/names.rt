ghost use Rattle.std.specs.Prelude.{◌≡◌, [], ◌∷◌, ◌++◌, ◌<◌, length, slice_get, IfOk, IfSome, OnOk};
ghost use Rattle.std.specs.Prelude.{OnErr, Some, None};
ghost use Rattle.gql_base.specs.Names.{place_of, AreDistinct};
ghost use Rattle.std.specs.Arc.{arc_value};
ghost use Rattle.gql_base.specs.NamesKept.{IsKept, kept_names};
ghost use Rattle.gql_base.specs.Places.{IsIndex};

use crate::copied::{Copied, copies};
use crate::made::Made;
use crate::name::Name;
use crate::places::Places;
use std::alloc::Global;
use std::marker::Model;
use std::sync::Arc;

/// The most names that are searched in order.
const FEW: usize = 8;

/// Names in order of insertion, none twice. Contracts see the list of the names.
#[derive(Debug, Drop)]
pub struct Names {
    kept: Kept,
}

/// A few names are searched in order, whether copies share them or not; more stand beside an index
/// of their places, and copies share both.
#[derive(Debug, Drop)]
enum Kept {
    Own(Vec<Name>),
    Shared(Arc<Vec<Name>>),
    Many(Arc<Indexed>),
}

/// Names beside the place of each.
#[derive(Debug, Drop)]
struct Indexed {
    list: Vec<Name>,
    places: Places,
}

impl Model for Names {
    ghost use Rattle.std.specs.Prelude.{List, ℕ};
    ghost use Rattle.std.specs.Coded.{coded_list, coded_ℕ};
    ghost use Rattle.gql_base.specs.Names.{AreDistinct};

    ghost Value = { List (List ℕ) };

    ghost coded = { coded_list (coded_list coded_ℕ) };

    ghost use Rattle.gql_base.specs.NamesKept.{kept_names, IsKept};

    ghost view = { λ names. kept_names names.kept };

    ghost invariant = { λ names. AreDistinct (kept_names names.kept) × IsKept names.kept };
}

impl Names {
    /// No name at all, which takes no memory.
    pub fn new(alloc: Global) -> Names
        ensures { result ≡ [] }
    {
        Names {
            kept: Kept::Own(Vec::new(alloc)),
        }
    }

    /// No name at all, with room for some.
    pub fn with_capacity(alloc: Global, room: usize) -> Made<Names>
        ensures { IfOk result (λ made. made ≡ []) }
    {
        let list = Vec::with_capacity(alloc, room)?;
        Ok(Names {
            kept: Kept::Own(list),
        })
    }

    /// Takes room for more names, where no copy shares these.
    pub fn reserve(&mut self, more: usize) -> Made<()>
        ensures { self.new ≡ self.old }
    {
        match &mut self.kept {
            Kept::Own(list) => list.reserve(more),
            Kept::Shared(_) | Kept::Many(_) => Ok(()),
        }
    }

    /// The same names, which copies share from here on.
    pub fn shared(self, alloc: Global) -> Made<Names>
        ensures { IfOk result (λ names. names ≡ self) }
    {
        match self.kept {
            Kept::Own(list) => Ok(Names {
                kept: Kept::Shared(Arc::new(alloc, list)?),
            }),
            kept => Ok(Names { kept }),
        }
    }

    /// The names in order, moved, or copies of them where others share them.
    pub fn into_vec(self, alloc: Global) -> Made<Vec<Name>>
        ensures { IfOk result (λ names. names.items ≡ self) }
    {
        match self.kept {
            Kept::Own(list) => Ok(list),
            Kept::Shared(list) => match Arc::try_unwrap(list) {
                Ok(list) => Ok(list),
                Err(list) => copies(alloc, list.as_slice()),
            },
            Kept::Many(indexed) => match Arc::try_unwrap(indexed) {
                Ok(indexed) => Ok(indexed.list),
                Err(indexed) => copies(alloc, indexed.list.as_slice()),
            },
        }
    }

    /// The number of names.
    pub fn len(&self) -> usize
        ensures length { result ≡ length self.now }
        ensures distinct { AreDistinct self.now }
    {
        match &self.kept {
            Kept::Own(list) => list.len(),
            Kept::Shared(list) => list.len(),
            Kept::Many(indexed) => indexed.list.len(),
        }
    }

    /// The names in order.
    fn as_slice(&self) -> &[Name]
        ensures { result.now ≡ self.now }
    {
        match &self.kept {
            Kept::Own(list) => list.as_slice(),
            Kept::Shared(list) => list.as_slice(),
            Kept::Many(indexed) => indexed.list.as_slice(),
        }
    }

    /// The place of a name, counted from 0, or none where the name isn't there.
    pub fn place_of(&self, name: &str) -> Option<usize>
        ensures place { result ≡ place_of name.now self.now }
        ensures within { IfSome result (λ place. place < length self.now) }
    {
        match &self.kept {
            Kept::Own(list) => place_in(list.as_slice(), name),
            Kept::Shared(list) => place_in(list.as_slice(), name),
            Kept::Many(indexed) => indexed.places.get(indexed.list.as_slice(), name),
        }
    }

    /// The name at a place, counted from 0.
    pub fn at(&self, place: usize) -> &str
        requires { place < length self.now }
        ensures { slice_get self.now place ≡ Some result.now }
    {
        self.name_at(place).as_str()
    }

    /// The same as it is kept: a copy of a long name shares its bytes.
    pub fn name_at(&self, place: usize) -> &Name
        requires { place < length self.now }
        ensures { slice_get self.now place ≡ Some result.now }
    {
        &self.as_slice()[place]
    }

    /// Adds a name that isn't there, at the end, and looks no name up. Where memory runs out the
    /// names stay as they were.
    #[tactic(auto, using(crate::proofs::NamesLemmas::distinct_added, crate::proofs::NamesLemmas::distinct_pushed))]
    pub fn add_fresh(&mut self, name: Name) -> Made<()>
        requires { place_of name self.old ≡ None }
        ensures ok { OnOk result (self.new ≡ self.old ++ name ∷ []) }
        ensures err { OnErr result (self.new ≡ self.old) }
    {
        match &mut self.kept {
            Kept::Own(list) if list.len() < FEW => {
                list.push(name)?;
                Ok(())
            }
            Kept::Own(list) => {
                let alloc = *list.allocator();
                self.kept = kept_with(alloc, copies(alloc, list.as_slice())?, name)?;
                Ok(())
            }
            Kept::Shared(list) => {
                let alloc = *list.allocator();
                self.kept = kept_with(alloc, copies(alloc, list.as_slice())?, name)?;
                Ok(())
            }
            Kept::Many(indexed) => add_to(indexed, name),
        }
    }
}

/// A copy shares names that are shared.
impl Copied for Names {
    fn try_clone(&self, alloc: Global) -> Made<Names> {
        let kept = match &self.kept {
            Kept::Own(list) => Kept::Own(copies(alloc, list.as_slice())?),
            Kept::Shared(list) => Kept::Shared(Arc::try_clone(list)?),
            Kept::Many(indexed) => Kept::Many(Arc::try_clone(indexed)?),
        };
        Ok(Names { kept })
    }
}

/// Equal where the names are, in their order.
impl PartialEq for Names {
    ghost use Rattle.std.specs.Prelude.{nat_eq};
    ghost use Rattle.std.specs.Cmp.{partial_equiv_from_equiv};
    ghost use Rattle.std.specs.Cmp.Lexicographic.{pointwise, lists_per, nat_list_eq_equiv};

    ghost eq = { pointwise (pointwise nat_eq) };

    ghost laws = { lists_per (partial_equiv_from_equiv nat_list_eq_equiv) };

    fn eq(&self, other: &Names) -> bool {
        self.as_slice() == other.as_slice()
    }
}

impl Indexed {
    /// Some names with an index of their places.
    fn of(alloc: Global, list: Vec<Name>) -> Made<Indexed>
        requires { AreDistinct list.items }
        ensures list { IfOk result (λ indexed. indexed.list.items ≡ list.items) }
        ensures index { IfOk result (λ indexed. IsIndex indexed.places list.items) }
    {
        let places = Places::of(alloc, list.as_slice())?;
        Ok(Indexed { list, places })
    }

    /// Adds a name that isn't there, with its place.
    fn add(&mut self, name: Name) -> Made<()>
        requires fresh { place_of name self.old.list.items ≡ None }
        requires distinct { AreDistinct self.old.list.items }
        requires index { IsIndex self.old.places self.old.list.items }
        ensures ok { OnOk result (self.new.list.items ≡ self.old.list.items ++ name ∷ []) }
        ensures err { OnErr result (self.new.list.items ≡ self.old.list.items) }
        ensures index { IsIndex self.new.places self.new.list.items }
    {
        self.list.reserve(1)?;
        let alloc = *self.list.allocator();
        self.places.add(alloc, self.list.as_slice(), name.as_str())?;
        self.list.push_reserved(name);
        Ok(())
    }
}

/// Names that differ, with one more that differs from them.
fn kept_with(alloc: Global, mut list: Vec<Name>, name: Name) -> Made<Kept>
    requires fresh { place_of name list.items ≡ None }
    requires distinct { AreDistinct list.items }
    ensures names { IfOk result (λ kept. kept_names kept ≡ list.items ++ name ∷ []) }
    ensures kept { IfOk result IsKept }
{
    if list.len() < FEW {
        list.push(name)?;
        return Ok(Kept::Own(list));
    }
    let mut indexed = Indexed::of(alloc, list)?;
    indexed.add(name)?;
    Ok(Kept::Many(Arc::new(alloc, indexed)?))
}

/// Adds a name that isn't there. Where copies share the names, they are copied first.
fn add_to(indexed: &mut Arc<Indexed>, name: Name) -> Made<()>
    requires fresh { place_of name (arc_value indexed.old).list.items ≡ None }
    requires distinct { AreDistinct (arc_value indexed.old).list.items }
    requires index { IsIndex (arc_value indexed.old).places (arc_value indexed.old).list.items }
    ensures ok { OnOk result ((arc_value indexed.new).list.items
        ≡ (arc_value indexed.old).list.items ++ name ∷ []) }
    ensures err { OnErr result ((arc_value indexed.new).list.items
        ≡ (arc_value indexed.old).list.items) }
    ensures index { IsIndex (arc_value indexed.new).places (arc_value indexed.new).list.items }
{
    match Arc::get_mut(indexed) {
        Some(own) => own.add(name),
        None => {
            let alloc = *indexed.list.allocator();
            let mut own = Indexed::of(alloc, copies(alloc, indexed.list.as_slice())?)?;
            own.add(name)?;
            *indexed = Arc::new(alloc, own)?;
            Ok(())
        }
    }
}

/// The place of a name among others, searched in order.
fn place_in(names: &[Name], name: &str) -> Option<usize>
    ensures { result ≡ place_of name.now names.now }
{
    for (place, other) in names.iter().enumerate() {
        if name == other.as_str() {
            return Some(place);
        }
    }
    None
}
