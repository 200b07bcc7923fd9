//! The arguments of a field as they are written, found by their names.
ghost use Rattle.std.specs.Prelude.{◌≡◌, [], ◌∷◌, ◌++◌, List, IfOk, IfSome, OnOk};
ghost use Rattle.std.specs.Option.{option_copied};
ghost use Rattle.gql_doc.specs.declared.document.Argument.{Argument as Written};
ghost use Rattle.gql_select.specs.Constants.{given};
ghost use Rattle.gql_select.specs.Given.{IsIndex, IsIndexed};

use gql_base::{Copied, Made, Pairs};
use gql_doc::{Argument, DocValue};
use std::alloc::Global;
use std::marker::Model;

/// The most arguments that are searched in order.
const FEW: usize = 8;

/// The arguments of a field as they are written. A few are searched in order; more stand beside an
/// index of their names. Contracts see the list of the arguments.
#[derive(Drop)]
pub struct Given<'a> {
    written: &'a [Argument],
    index: Option<Pairs<&'a DocValue>>,
}

impl<'a> Model for Given<'a> {
    ghost use Rattle.std.specs.Prelude.{List};
    ghost use Rattle.std.specs.Coded.{coded_list};
    ghost use Rattle.gql_doc.specs.contracts.document.Argument.{the_row};
    ghost use Rattle.gql_doc.specs.declared.document.Argument.{Argument as Written};
    ghost use Rattle.gql_select.specs.Given.{IsIndexed};

    ghost Value = { List Written };

    ghost coded = { coded_list the_row.coded };

    ghost view = { λ given. given.written.now };

    ghost invariant = { λ given. IsIndexed given.written.now given.index };
}

impl<'a> Given<'a> {
    /// Arguments as they are written. A few take no memory.
    pub fn new(alloc: Global, written: &'a [Argument]) -> Made<Given<'a>>
        ensures { IfOk result (λ made. made ≡ written.entry.now) }
    {
        let index = index_of_many(alloc, written)?;
        Ok(Given { written, index })
    }

    /// The value of the first argument of a name, if any.
    pub fn get(&self, name: &str) -> Option<&'a DocValue>
        ensures { option_copied result ≡ given name.now self.now }
    {
        match &self.index {
            Some(index) => index.get(name).copied(),
            None => value_in(self.written, name),
        }
    }

    /// The arguments in order.
    pub(crate) fn written(&self) -> &'a [Argument]
        ensures { result.now ≡ self.now }
    {
        self.written
    }

    /// The index, where there is one.
    pub(crate) fn index(&self) -> Option<&Pairs<&'a DocValue>>
        ensures { IfSome result (λ index. IsIndex self.now index.now) }
    {
        self.index.as_ref()
    }
}

/// The value of the first of some arguments that has a name, searched in order.
pub fn value_in<'a>(arguments: &'a [Argument], name: &str) -> Option<&'a DocValue>
    ensures { option_copied result ≡ given name.now arguments.now }
{
    let found = arguments
        .iter()
        .find(|argument| argument.name.node.as_str() == name)?;
    Some(&found.value.node)
}

/// An index of more than a few arguments.
fn index_of_many<'a>(alloc: Global, arguments: &'a [Argument]) -> Made<Option<Pairs<&'a DocValue>>>
    ensures { IfOk result (λ index. IsIndexed arguments.entry.now index) }
{
    if arguments.len() <= FEW {
        return Ok(None);
    }
    let index = index_of(alloc, arguments)?;
    Ok(Some(index))
}

/// The values of arguments under their names; of a doubled one the first.
fn index_of<'a>(alloc: Global, arguments: &'a [Argument]) -> Made<Pairs<&'a DocValue>>
    ensures { IfOk result (λ index. IsIndex arguments.entry.now index) }
{
    let mut index = Pairs::new(alloc);
    for argument in arguments {
        add_first(alloc, &mut index, argument)?;
    }
    Ok(index)
}

/// Adds the value of an argument, unless there is one of its name.
fn add_first<'a>(alloc: Global, index: &mut Pairs<&'a DocValue>, argument: &'a Argument) -> Made<()>
    ensures { OnOk result ((before : List Written) → IsIndex before index.old
        → IsIndex (before ++ argument.entry.now ∷ []) index.new) }
{
    match index.get(argument.name.node.as_str()) {
        Some(_) => Ok(()),
        None => {
            let name = argument.name.node.try_clone(alloc)?;
            index.add_fresh(name, &argument.value.node)
        }
    }
}
