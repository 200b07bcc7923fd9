//! Bodies of `multipart/mixed`, each public call with ample memory.
use gql_base::{Items, Made, Value};
use gql_multipart::MultipartMixed;
use gql_request::Response;
use std::alloc::Global;
use std::test::Fail;

/// What stands before the JSON text of a part.
const HEAD: &[u8] = b"--graphql\r\nContent-Type: application/json\r\n\r\n";

/// Whether bytes are the head of a part and these after it.
fn is_part(bytes: &Items<u8>, behind: &[u8]) -> bool {
    match bytes.as_slice().strip_prefix(HEAD) {
        Some(rest) => rest == behind,
        None => false,
    }
}

fn response_part(alloc: Global) -> Made<Items<u8>> {
    let response = Response::new(alloc, Value::Boolean(true));
    MultipartMixed::new().response(alloc, &response)
}

#[test]
fn parts_of_a_body(rt: HostRuntime) -> Result<(), Fail> {
    assert!(rt; is_part(&response_part(rt.alloc())?, b"{\"data\":true}\r\n"));
    assert!(rt; is_part(&MultipartMixed::new().heartbeat(rt.alloc())?, b"{}\r\n"));
    let end = MultipartMixed::new().end(rt.alloc())?;
    assert!(rt; end.as_slice() == b"--graphql--\r\n".as_slice());
    Ok(())
}
