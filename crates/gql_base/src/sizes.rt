//! What a text, a name and a value take in bytes.
use crate::name::Name;
use crate::text::Text;
use crate::value::Value;
use std::mem::size_of;

const _: () = prove!(size_of::<Text>() == 24);

const _: () = prove!(size_of::<Name>() == 24);

const _: () = prove!(size_of::<Value>() == 32);
