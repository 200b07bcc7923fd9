ghost use Rattle.std.specs.Prelude.{◌≡◌, IfOk};
ghost use Rattle.std.specs.Arc.{arc_value};

use crate::copied::Copied;
use crate::made::Made;
use std::alloc::Global;
use std::marker::Model;
use std::ops::Deref;
use std::sync::Arc;

/// A value on the heap that its copies have in common, so that a copy costs the same whatever its
/// size is. Contracts see the value itself.
#[derive(Debug, Drop)]
pub struct Common<T> {
    held: Arc<T>,
}

impl<T> Model for Common<T> {
    ghost use Rattle.std.specs.Arc.{arc_value};

    ghost Value = { T };

    ghost coded = { T.code };

    ghost view = { λ common. arc_value common.held };
}

impl<T> Deref for Common<T> {
    type Target = T;

    ghost use Rattle.std.specs.Prelude.{◌≡◌};

    ghost deref_gives = { λ common value. value ≡ common };

    fn deref(&self) -> &T
        ensures { result.now ≡ self.now }
    {
        &self.held
    }
}

impl<T: Drop> Common<T> {
    /// Moves a value to the heap.
    pub fn new(alloc: Global, value: T) -> Made<Common<T>>
        ensures { IfOk result (λ made. made ≡ value) }
    {
        let held = Arc::new(alloc, value)?;
        Ok(Common { held })
    }
}

impl<T: Copied + Drop> Common<T> {
    /// Moves the value from the heap, or copies it where copies of this hold it, too.
    pub fn into_inner(self, alloc: Global) -> Made<T>
        ensures { IfOk result (λ value. value ≡ self) }
    {
        let Common { held } = self;
        match Arc::try_unwrap(held) {
            Ok(value) => Ok(value),
            Err(held) => held.try_clone(alloc),
        }
    }
}

impl<T: Drop> Copied for Common<T> {
    fn try_clone(&self, _alloc: Global) -> Made<Common<T>> {
        let held = self.held.clone()?;
        Ok(Common { held })
    }
}

impl<T: PartialEq> PartialEq for Common<T> {
    ghost eq = { T.eq };

    ghost laws = { T.laws };

    fn eq(&self, other: &Common<T>) -> bool {
        let (one, other): (&T, &T) = (self, other);
        one == other
    }
}
