use crate::short::Short;
use std::sync::Arc;

/// A text of at most 22 bytes in place, or a longer one on the heap, which its copies share.
#[derive(Debug, Drop)]
pub(crate) enum Inner {
    Short(Short),
    Long(Arc<String>),
}
