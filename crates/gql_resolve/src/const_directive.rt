ghost use Rattle.std.specs.Prelude.{◌≡◌, IfOk};

use gql_base::{Copied, Items, Made, Name, Value};
use gql_doc::Positioned;
use std::alloc::Global;

/// A directive with the values of its arguments, each at its place.
#[derive(Drop)]
pub struct ConstDirective {
    pub name: Positioned<Name>,
    pub arguments: Items<(Positioned<Name>, Positioned<Value>)>,
}

impl Copied for ConstDirective {
    fn try_clone(&self, alloc: Global) -> Made<ConstDirective> {
        let arguments = copy_arguments(alloc, self.arguments.as_slice())?;
        let name = self.name.try_clone(alloc)?;
        Ok(ConstDirective { name, arguments })
    }
}

fn copy_arguments(
    alloc: Global,
    arguments: &[(Positioned<Name>, Positioned<Value>)],
) -> Made<Items<(Positioned<Name>, Positioned<Value>)>>
    ensures { IfOk result (λ copies. copies ≡ arguments.now) }
{
    let mut copies = Items::new(alloc);
    for (name, value) in arguments {
        let name = name.try_clone(alloc)?;
        copies.push((name, value.try_clone(alloc)?))?;
    }
    Ok(copies)
}
