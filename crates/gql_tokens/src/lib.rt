//! The tokens of a GraphQL text.
#![tactic(auto)]

mod block;
mod characters;
mod gap;
mod lexer;
mod lines;
mod name;
mod number;
mod place;
mod reaching;
mod shared;
mod string;
mod token;

pub use lexer::{is_final, one_token_list, tokens_of};
pub use reaching::{Reached, next_token};
pub use token::{Lexeme, Punctuator, Token};
