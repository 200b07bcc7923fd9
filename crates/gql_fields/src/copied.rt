//! A copy of a site, equal to its source.
use crate::site::Site;
use gql_base::{Copied, Made};
use std::alloc::Global;

impl Copied for Site<'_> {
    fn try_clone(&self, _alloc: Global) -> Made<Self> {
        Ok(*self)
    }
}
