ghost use Rattle.std.specs.Prelude.{◌≡◌, [], IfOk, OnErr, OnOk, Some};
ghost use Rattle.std.specs.Option.{option_copied};
ghost use Rattle.gql_ws.specs.Found.{found, without, placed, has_id, has_number, number_of};
ghost use Rattle.gql_ws.specs.Lives.{AreSingle};

use crate::live::Live;
use crate::starts::{place_start, start_of, take_by_id, take_by_number};
use gql_base::{Copied, Made, Text};
use std::alloc::Global;
use std::collections::BTreeMap;
use std::marker::Model;

/// The live starts in order, with the number of each id beside them. Contracts see the list.
#[derive(Debug, Drop)]
pub struct Lives {
    list: Vec<Live>,
    numbers: BTreeMap<String, u64>,
}

impl Model for Lives {
    ghost use Rattle.std.specs.Prelude.{List};
    ghost use Rattle.std.specs.Coded.{coded_list};
    ghost use Rattle.gql_ws.specs.declared.live.Live.{Live};
    ghost use Rattle.gql_ws.specs.Lives.{HasNumbers, AreSingle, coded_live};

    ghost Value = { List Live };

    ghost coded = { coded_list coded_live };

    ghost view = { λ lives. lives.list.items };

    ghost invariant = { λ lives. HasNumbers lives.numbers lives.list.items
        × AreSingle lives.list.items };
}

impl Lives {
    /// No live start, which takes no memory.
    pub fn new(alloc: Global) -> Lives
        ensures { result ≡ [] }
    {
        Lives {
            list: Vec::new(alloc),
            numbers: BTreeMap::new(alloc),
        }
    }

    /// The number of a live id.
    pub fn number_of(&self, id: &Text) -> Option<u64>
        ensures { result ≡ number_of id.now self.now }
    {
        self.numbers.get(id.as_str()).copied()
    }

    /// The live start of a number.
    pub fn start_of(&self, number: u64) -> Option<&Live>
        ensures { option_copied result ≡ found (has_number number) self.now }
    {
        start_of(self.list.as_slice(), number)
    }

    /// Puts a start in the place of that of its id, whose number it answers, or at the end.
    pub fn place(&mut self, alloc: Global, id: Text, number: u64) -> Made<Option<u64>>
        ensures replaced { IfOk result (λ old. old ≡ number_of id self.old) }
        ensures ok { OnOk result (self.new ≡ placed id number self.old) }
        ensures err { OnErr result (self.new ≡ self.old) }
    {
        place_start(alloc, &mut self.list, &mut self.numbers, id, number)
    }

    /// Takes the start of an id out, whose number is known.
    pub fn take_id(&mut self, number: u64, id: &Text)
        requires { number_of id.now self.old ≡ Some number }
        ensures { self.new ≡ without (has_id id.now) self.old }
    {
        take_by_id(&mut self.list, &mut self.numbers, number, id)
    }

    /// Takes the start of a number out, if it is live.
    pub fn take_number(&mut self, number: u64) -> Option<Live>
        ensures taken { result ≡ found (has_number number) self.old }
        ensures rest { self.new ≡ without (has_number number) self.old }
    {
        take_by_number(&mut self.list, &mut self.numbers, number)
    }
}

impl Copied for Lives {
    fn try_clone(&self, alloc: Global) -> Made<Lives> {
        copy_lives(alloc, self.list.as_slice())
    }
}

/// The starts of a list in which no id stands twice.
fn copy_lives(alloc: Global, list: &[Live]) -> Made<Lives>
    requires { AreSingle list.now }
    ensures { IfOk result (λ copy. copy ≡ list.now) }
{
    let mut copy = Lives::new(alloc);
    for start in list {
        copy.place(alloc, start.id.try_clone(alloc)?, start.number)?;
    }
    Ok(copy)
}
