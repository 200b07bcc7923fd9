//! A copy of what is chosen, equal to its source.
use crate::chosen::Chosen;
use gql_base::{Copied, Made};
use std::alloc::Global;

impl Copied for Chosen {
    fn try_clone(&self, alloc: Global) -> Made<Chosen> {
        Ok(Chosen {
            operation_name: self.operation_name.try_clone(alloc)?,
            operation: self.operation.try_clone(alloc)?,
            fragments: self.fragments.try_clone(alloc)?,
        })
    }
}
