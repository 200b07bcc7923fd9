//! Places of a response: how they are joined, how null is raised through them, and which errors and
//! header operations they have (GraphQL, October 2021, sections 6.3 and 6.4).
#![tactic(auto)]

mod copying;
mod joining;
pub mod laws;
mod piece;
mod pieces;
mod place;
mod place_faults;
mod place_headers;
mod raising;
mod shape;
mod shared;

pub use joining::{join, join_onto};
pub use piece::Piece;
pub use pieces::{MemberPieces, Pieces, absent_tree};
pub use place::{Place, Tree};
pub use place_faults::faults;
pub use place_headers::header_ops;
pub use raising::{raise, raise_moved};
pub use shape::Shape;
