//! The test of the header `Accept` (RFC 9110, section 12.5.1).
use gql_multipart::is_accept_multipart_mixed;
use std::test::Fail;

/// Headers that ask for a multipart body.
const MULTIPART: [&str; 11] = [
    r#"multipart/mixed; boundary="graphql"; subscriptionSpec="1.0""#,
    r#"application/json;q=0.5,multipart/mixed; boundary="graphql"; subscriptionSpec="1.0""#,
    "multipart/mixed;boundary=graphql;subscriptionSpec=1.0,application/json",
    "\tMultipart/MIXED\t;\tBOUNDARY=graphql ; SUBSCRIPTIONSPEC=1.0 ",
    r#"multipart/mixed;boundary="gr\aph\ql";subscriptionSpec="1\.0";x=";\"""#,
    "multipart/mixed;boundary=graphql;boundary=x;subscriptionSpec=1.0;q=0;q=1",
    "text/html, application/json;q=0.9, multipart/mixed;boundary=graphql;subscriptionSpec=1.0;q=0.91",
    "application/json;q=0.999,multipart/mixed;boundary=graphql;subscriptionSpec=1.0;q=1.001",
    "application/json;q=0.,multipart/mixed;boundary=graphql;subscriptionSpec=1.0;q=\"0.001\"",
    "multipart/mixed;boundary=graphql;subscriptionSpec=1.0;q=0.1234,application/json",
    "application/json;q,multipart/mixed;boundary=graphql;subscriptionSpec=1.0",
];

/// Headers that don't.
const OTHERS: [&str; 16] = [
    "",
    "*/*",
    "multipart/mixed",
    "multipart/mixed;boundary=graphql",
    "multipart/mixed;subscriptionSpec=1.0",
    "multipart/mixed;boundary=GraphQL;subscriptionSpec=1.0",
    "multipart/mixed;boundary=x;boundary=graphql;subscriptionSpec=1.0",
    "multipart/mixed;boundary=graphql;subscriptionSpec=1.0;",
    "multipart/mixed;boundary =graphql;subscriptionSpec=1.0",
    r#"multipart/mixed;boundary="graphql;subscriptionSpec=1.0"#,
    r#"multipart/mixed;x="a,b";boundary=graphql;subscriptionSpec=1.0"#,
    "multipart/form-data;boundary=graphql;subscriptionSpec=1.0",
    r#"application/json,multipart/mixed; boundary="graphql"; subscriptionSpec="1.0""#,
    "APPLICATION/Json;charset=utf-8,multipart/mixed;boundary=graphql;subscriptionSpec=1.0",
    "application/json,multipart/mixed;boundary=graphql;subscriptionSpec=1.0;q=1.001",
    "application/json;q=0.50,multipart/mixed;boundary=graphql;subscriptionSpec=1.0;q=0.5",
];

/// The first header of a table for which the test answers otherwise.
fn first_wrong(headers: &[&'static str], asks: bool) -> Option<&'static str> {
    for header in headers {
        if is_accept_multipart_mixed(header) != asks {
            return Some(*header);
        }
    }
    None
}

#[test]
fn headers_that_ask_for_multipart(rt: HostRuntime) -> Result<(), Fail> {
    assert_eq!(rt; first_wrong(&MULTIPART, true), None);
    Ok(())
}

#[test]
fn headers_that_ask_for_something_else(rt: HostRuntime) -> Result<(), Fail> {
    assert_eq!(rt; first_wrong(&OTHERS, false), None);
    Ok(())
}
