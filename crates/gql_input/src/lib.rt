//! Values as a resolver reads them: accessors, each over one value, one object or one list.
#![tactic(auto)]

mod access_fault;
mod enum_type;
mod input_type;
mod input_value_error;
mod inputs;
mod iterators;
mod list_accessor;
mod object_accessor;
mod scalar_type;
mod value_accessor;

pub use access_fault::AccessFault;
pub use enum_type::{EnumItem, EnumType, enum_value, parse_enum, parse_enum_named};
pub use input_type::InputType;
pub use input_value_error::{InputValueError, InputValueResult};
pub use iterators::{Keys, ListItems, Members, Values};
pub use list_accessor::ListAccessor;
pub use object_accessor::ObjectAccessor;
pub use scalar_type::ScalarType;
pub use value_accessor::ValueAccessor;
