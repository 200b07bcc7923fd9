//! Numbers that were joined: each stands beside one that it was joined with, and the least of those
//! that are one with each other stands beside itself.

/// The number that stands for all that are one with this.
pub(crate) fn head_of(heads: &mut [usize], number: usize) -> usize {
    let head = followed(heads, number);
    shorten(heads, number, head);
    head
}

/// Makes two numbers, with all that are one with them, one; true where they weren't.
pub(crate) fn join(heads: &mut [usize], one: usize, other: usize) -> bool {
    let first = head_of(heads, one);
    let second = head_of(heads, other);
    if first == second {
        return false;
    }
    set_beside(heads, first.max(second), first.min(second));
    true
}

/// The number that another stands beside.
fn beside(heads: &[usize], number: usize) -> usize {
    match heads.get(number) {
        Some(next) => *next,
        None => number,
    }
}

fn set_beside(heads: &mut [usize], number: usize, next: usize) {
    if number < heads.len() {
        heads[number] = next;
    }
}

/// The end of the way from a number, each beside the next.
fn followed(heads: &[usize], number: usize) -> usize {
    let mut at = number;
    for _ in 0..heads.len() {
        let next = beside(heads, at);
        if next == at {
            return at;
        }
        at = next;
    }
    at
}

/// Puts the numbers on the way to an end beside it.
fn shorten(heads: &mut [usize], number: usize, end: usize) {
    let mut at = number;
    for _ in 0..heads.len() {
        if at == end {
            return;
        }
        let next = beside(heads, at);
        set_beside(heads, at, end);
        at = next;
    }
}
