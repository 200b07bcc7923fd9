use crate::same::Same;
use gql_base::{Copied, Made, Text};
use std::alloc::Global;

/// Why a table of types is refused: the number of the rule that it breaks (`SchemaRule`), and a text
/// for a reader.
#[derive(Debug, Drop)]
pub struct SchemaError {
    pub rule: u8,
    pub text: Text,
}

impl Copied for SchemaError {
    fn try_clone(&self, alloc: Global) -> Made<SchemaError> {
        Ok(SchemaError {
            rule: self.rule,
            text: self.text.try_clone(alloc)?,
        })
    }
}

impl Same for SchemaError {
    fn same(&self, other: &SchemaError) -> bool {
        self.rule == other.rule && self.text == other.text
    }
}
