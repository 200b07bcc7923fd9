//! Bodies of `multipart/mixed` with one response after another, and the test of the header
//! `Accept` that asks for them.
#![tactic(auto)]

mod accept;
pub mod laws;
mod media_range;
mod multipart_mixed;
mod offer;
mod parameter;
mod quality;
mod quoted;
mod shared;
mod token;
mod told;

pub use accept::is_accept_multipart_mixed;
pub use multipart_mixed::MultipartMixed;
