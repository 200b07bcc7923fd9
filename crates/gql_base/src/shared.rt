//! The public types can be moved to threads and shared between them, where what they are made of
//! can.
use crate::{
    Boxed, Common, EnumForm, Error, ErrorExtensionValues, Items, JsonFault, JsonPlace, Name, Names,
    NoMemory, Number, Pairs, PathSegment, Pos, ServerError, Text, Told, TypeRef, Value, Variables,
};

fn shared<T: Send + Sync>() {}

fn public_types<'a>() {
    shared::<Boxed<Value>>();
    shared::<Common<Items<Value>>>();
    shared::<Common<Pairs<Value>>>();
    shared::<EnumForm>();
    shared::<Error>();
    shared::<ErrorExtensionValues>();
    shared::<Items<Value>>();
    shared::<JsonFault>();
    shared::<JsonPlace>();
    shared::<Name>();
    shared::<Names>();
    shared::<NoMemory>();
    shared::<Number>();
    shared::<Pairs<Value>>();
    shared::<PathSegment>();
    shared::<Pos>();
    shared::<ServerError>();
    shared::<Text>();
    shared::<Told<'a>>();
    shared::<TypeRef>();
    shared::<Value>();
    shared::<Variables>();
}
