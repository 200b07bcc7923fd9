//! The public types can be moved to threads and shared between them.
use crate::{Lexeme, Punctuator, Reached, Token};

fn shared<T: Send + Sync>() {}

fn public_types() {
    shared::<Lexeme>();
    shared::<Punctuator>();
    shared::<Reached>();
    shared::<Token>();
}
