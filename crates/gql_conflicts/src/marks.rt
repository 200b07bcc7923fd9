//! Marks of keys in classes: one key of one class has one mark, and others hardly ever have the
//! same.
ghost use Rattle.std.specs.Prelude.{◌≡◌};
ghost use Rattle.gql_conflicts.specs.Marks.{mark_from, mark_of};

/// The mark of a key of a class.
pub(crate) fn mark_of(class: usize, key: &str) -> u64
    ensures { result ≡ mark_of class key.now }
{
    mark_from(class as u64, key.as_bytes())
}

fn mark_from(start: u64, bytes: &[u8]) -> u64
    ensures { result ≡ mark_from start bytes.now }
{
    let mut mark = start.wrapping_mul(1_099_511_628_211);
    for byte in bytes {
        mark = mark
            .wrapping_add(u64::from(*byte))
            .wrapping_mul(1_099_511_628_211);
    }
    mark
}
