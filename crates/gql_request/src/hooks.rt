ghost use Rattle.std.specs.Prelude.{◌≡◌};

use std::alloc::Global;

/// The hooks of an execution, in the order in which they are called. The only list so far is the
/// empty one.
#[derive(Debug, Drop)]
pub struct Hooks {
    _none: (),
}

impl Hooks {
    /// No hook at all, which takes no memory.
    pub fn none(_alloc: Global) -> Hooks {
        Hooks { _none: () }
    }
}
