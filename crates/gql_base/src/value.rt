ghost use Rattle.std.specs.Prelude.{◌≡◌, IfOk};

use crate::common::Common;
use crate::items::Items;
use crate::made::Made;
use crate::name::Name;
use crate::number::Number;
use crate::pairs::Pairs;
use crate::text::Text;
use std::alloc::Global;

/// A GraphQL value (GraphQL, October 2021, section 2.9), with whole numbers alone. The members of
/// an object stand in the order of their insertion. Copies of a list or an object have what stands
/// in it in common.
#[derive(Debug, Drop)]
pub enum Value {
    Null,
    Boolean(bool),
    Number(Number),
    String(Text),
    Enum(Name),
    List(Common<Items<Value>>),
    Object(Common<Pairs<Value>>),
}

impl Value {
    /// The list of these items.
    pub fn list(alloc: Global, items: Items<Value>) -> Made<Value>
        ensures { IfOk result (λ value. value ≡ Value.List items) }
    {
        Ok(Value::List(Common::new(alloc, items)?))
    }

    /// The object of these members.
    pub fn object(alloc: Global, members: Pairs<Value>) -> Made<Value>
        ensures { IfOk result (λ value. value ≡ Value.Object members) }
    {
        Ok(Value::Object(Common::new(alloc, members)?))
    }
}
