//! Reading a source to its end.
ghost use Rattle.std.specs.Prelude.{◌≡◌, IfOk, vec_len};
ghost use Rattle.gql_io.specs.Reading.{Shows};

use crate::source::Source;
use gql_base::{Items, Made};
use std::alloc::Global;

/// How many bytes an input may have.
pub const INPUT_LIMIT: usize = 16_777_216;

/// How many bytes are asked for in one read.
const PIECE: usize = 65_536;

/// What a reading found: the whole input, more than the limit, or a failed read.
#[derive(Debug, Drop)]
pub enum Reading {
    Whole(Items<u8>),
    TooLong,
    Failed,
}

/// Reads a source to its end, or until more than the limit was read.
pub fn read_whole<I: Source>(alloc: Global, source: &mut I) -> Made<Reading>
    ensures { IfOk result (Shows I.left I.given I.faults source.old source.new) }
{
    let mut bytes = Vec::new(alloc);
    let mut piece = buffer_of(alloc, PIECE)?;
    loop {
        match source.read(&mut piece) {
            Err(_) => return Ok(Reading::Failed),
            Ok(0) => return Ok(Reading::Whole(Items::from_vec(bytes))),
            Ok(count) if INPUT_LIMIT - bytes.len() < count => return Ok(Reading::TooLong),
            Ok(count) => bytes.extend_from_slice(&piece[..count])?,
        }
    }
}

/// A buffer of this many bytes.
fn buffer_of(alloc: Global, size: usize) -> Made<Vec<u8>>
    ensures { IfOk result (λ buffer. vec_len buffer ≡ size) }
{
    vec![in alloc; 0; size]
}
