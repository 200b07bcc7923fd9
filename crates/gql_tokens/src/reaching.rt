//! The tokens of a text, one by one.
ghost use Rattle.std.specs.Prelude.{◌≡◌, ℕ, List, IfOk};
ghost use Rattle.std.specs.Str.{IsUtf8};
ghost use Rattle.gql_tokens.specs.Place.{text_start};
ghost use Rattle.gql_tokens.specs.Reaching.{IsReached, IsNext};

use crate::lexer::{Step, step_at};
use crate::token::Token;
use gql_base::{Made, Pos};
use std::alloc::Global;

/// How far a text was read: so many bytes, and the place after them. `blocks_end` is false
/// once a block string has no end: then none after it has.
#[derive(Clone, Copy, Debug)]
pub struct Reached {
    pub at: usize,
    pub place: Pos,
    pub blocks_end: bool,
}

impl Reached {
    /// Nothing was read.
    pub fn start() -> Reached
        ensures at { result.at ≡ 0 }
        ensures place { result.place ≡ text_start }
        ensures reached { (text : List ℕ) → IsUtf8 text → IsReached text result }
    {
        Reached {
            at: 0,
            place: Pos { line: 1, column: 1 },
            blocks_end: true,
        }
    }
}

/// Reads the token that follows what was reached. Where memory runs out nothing more is reached.
pub fn next_token(alloc: Global, text: &str, reached: &mut Reached) -> Made<Token>
    requires { IsReached text.now reached.old }
    ensures reached { IsReached text.now reached.new }
    ensures next { IfOk result (λ token. IsNext text.now reached.old token reached.new) }
{
    let mut blocks_end = reached.blocks_end;
    let step = step_at(alloc, reached.place, &text[reached.at..], &mut blocks_end)?;
    let Step {
        token,
        length,
        place,
    } = step;
    *reached = Reached {
        at: reached.at + length,
        place,
        blocks_end,
    };
    Ok(token)
}
