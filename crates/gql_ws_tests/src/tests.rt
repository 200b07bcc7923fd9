use gql_ws::{ALL_WEBSOCKET_PROTOCOLS, Protocols, UnsupportedProtocol};
use std::alloc::{AllocError, Global};
use std::collections::HashSet;
use std::hash::{DefaultHasher, Hash, Hasher};
use std::str::FromStr;
use std::test::Fail;

#[test]
fn protocols_by_their_names(rt: HostRuntime) -> Result<(), Fail> {
    for (text, protocol) in [
        ("graphql-ws", Ok(Protocols::SubscriptionsTransportWS)),
        ("GraphQL-Transport-WS", Ok(Protocols::GraphQLWS)),
        ("graphql_ws", Err(UnsupportedProtocol)),
        ("", Err(UnsupportedProtocol)),
    ] {
        assert!(rt; Protocols::from_str(text) == protocol, "{text}");
    }
    Ok(())
}

#[test]
fn names_of_protocols(rt: HostRuntime) -> Result<(), Fail> {
    let [newer, older] = ALL_WEBSOCKET_PROTOCOLS;
    assert_eq!(rt; Protocols::GraphQLWS.sec_websocket_protocol(), newer);
    assert_eq!(rt;
        Protocols::SubscriptionsTransportWS.sec_websocket_protocol(),
        older
    );
    Ok(())
}

/// The hash of a key.
fn hash_of<T: Hash>(key: &T) -> u64 {
    let mut state = DefaultHasher::new();
    key.hash(&mut state);
    state.finish()
}

#[test]
fn hashes_of_protocols(rt: HostRuntime) -> Result<(), Fail> {
    let named = Protocols::from_str("GraphQL-WS")?;
    assert_eq!(rt;
        hash_of(&named),
        hash_of(&Protocols::SubscriptionsTransportWS)
    );
    Ok(())
}

/// The protocols of these names, each once.
fn protocols(alloc: Global, names: &[&str]) -> Result<HashSet<Protocols>, AllocError> {
    let mut known = HashSet::new(alloc);
    for name in names {
        if let Ok(protocol) = Protocols::from_str(name) {
            known.insert(protocol)?;
        }
    }
    Ok(known)
}

#[test]
fn protocols_as_keys(rt: HostRuntime) -> Result<(), Fail> {
    let known = protocols(rt.alloc(), &["graphql-ws", "GraphQL-WS", "x"])?;
    assert_eq!(rt; known.len(), 1);
    assert!(rt; known.contains(&Protocols::SubscriptionsTransportWS));
    assert!(rt; !known.contains(&Protocols::GraphQLWS));
    Ok(())
}
