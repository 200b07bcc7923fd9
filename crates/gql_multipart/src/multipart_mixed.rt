ghost use Rattle.std.specs.Prelude.{◌≡◌, ◌++◌, IfOk, codes, string_bytes};
ghost use Rattle.gql_multipart.specs.MultipartMixed.{body_end, line_end, part, part_head};
ghost use Rattle.gql_request.specs.Response.{response_json};

use gql_base::{Items, JsonText, Made};
use gql_request::Response;
use std::alloc::Global;

/// What stands before the JSON of each part: the boundary, the type, and an empty line.
const PART_HEAD: &str = "--graphql\r\nContent-Type: application/json\r\n\r\n";

/// The writer of a body of `multipart/mixed` with the boundary `graphql`, in which one response
/// after another comes to a client (RFC 2046, section 5.1). Who holds it sends each part as it is
/// made, and says when a heartbeat is due.
#[derive(Debug, Drop)]
pub struct MultipartMixed {}

impl MultipartMixed {
    /// The writer of a new body.
    pub fn new() -> MultipartMixed {
        MultipartMixed {}
    }

    /// The part of a response.
    pub fn response(&mut self, alloc: Global, response: &Response) -> Made<Items<u8>>
        ensures { IfOk result (λ bytes. bytes ≡ part (response_json response.now)) }
    {
        let mut out = begun(alloc)?;
        response.push_text(&mut out)?;
        ended(out)
    }

    /// A part that says nothing but that there is more to come.
    pub fn heartbeat(&mut self, alloc: Global) -> Made<Items<u8>>
        ensures { IfOk result (λ bytes. bytes ≡ part (codes "{}")) }
    {
        let mut out = begun(alloc)?;
        out.push_str("{}")?;
        ended(out)
    }

    /// What ends the body, after the last part.
    pub fn end(self, alloc: Global) -> Made<Items<u8>>
        ensures { IfOk result (λ bytes. bytes ≡ body_end) }
    {
        ended(String::from_str(alloc, "--graphql--")?)
    }
}

/// The head of a part.
fn begun(alloc: Global) -> Made<String>
    ensures { IfOk result (λ out. string_bytes out ≡ part_head) }
{
    String::from_str(alloc, PART_HEAD)
}

/// The bytes of a text, with the end of its last line.
fn ended(mut out: String) -> Made<Items<u8>>
    ensures { IfOk result (λ bytes. bytes ≡ string_bytes out ++ line_end) }
{
    out.push_str("\r\n")?;
    Ok(Items::from_vec(out.into_bytes()))
}
