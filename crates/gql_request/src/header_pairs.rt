ghost use Rattle.std.specs.Prelude.{◌≡◌, IfOk};
ghost use Rattle.gql_request.specs.HeaderPairs.{pairs_left};
ghost use Rattle.http_header.specs.HeaderMap.{pairs};

use gql_base::Made;
use http_header::{HeaderMap, HeaderName, HeaderValue};
use std::alloc::Global;
use std::vec;

/// The pairs of a name and a value of a map of headers, in the map's order.
#[derive(Debug, Drop)]
pub struct HeaderPairs {
    left: vec::IntoIter<(HeaderName, HeaderValue)>,
}

impl HeaderPairs {
    /// Copies of the pairs of a map.
    pub(crate) fn of(alloc: Global, map: &HeaderMap) -> Made<HeaderPairs>
        ensures { IfOk result (λ made. pairs_left made ≡ pairs map.now) }
    {
        let mut all = Vec::new(alloc);
        for (name, value) in map.iter() {
            all.push((name.clone()?, value.clone()?))?;
        }
        Ok(HeaderPairs {
            left: all.into_iter(),
        })
    }
}

impl Iterator for HeaderPairs {
    type Item = (HeaderName, HeaderValue);

    ghost use Rattle.std.specs.Iterator.{YieldsFirst, item_count};
    ghost use Rattle.gql_request.specs.HeaderPairs.{pairs_left};

    ghost next_gives = { YieldsFirst pairs_left };

    ghost remaining = { item_count pairs_left };

    fn next(&mut self) -> Option<(HeaderName, HeaderValue)> {
        self.left.next()
    }
}
