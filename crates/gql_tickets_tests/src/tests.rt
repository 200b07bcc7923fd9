ghost use Rattle.std.specs.Prelude.{◌≡◌, ◌<◌, length};
ghost use Rattle.gql_tickets.specs.Desks.{IsSeatOf, calls_of};

use crate::guestbook::{Guestbook, Line};
use crate::signing::sign;
use gql_tickets::{Desk, DeskSeat};
use std::alloc::{AllocError, Global};
use std::sync::Wait;
use std::test::Fail;
use std::thread::{Threads, join};

// An empty book.
fn empty(alloc: Global) -> Guestbook
    ensures { length result.lines.items ≡ 0 }
{
    Guestbook {
        lines: Vec::new(alloc),
    }
}

// The guests and words of a book, each line's in one number.
fn told(alloc: Global, book: &Guestbook) -> Result<Vec<u64>, AllocError> {
    let mut all = Vec::new(alloc);
    for line in book.lines.as_slice() {
        all.push(u64::from(line.guest) * 100 + u64::from(line.word % 100))?;
    }
    Ok(all)
}

#[test]
fn lines_stand_in_the_order_of_turns(rt: HostRuntime) -> Result<(), Fail> {
    let alloc = rt.alloc();
    let (desk, mut seats) = Desk::<Guestbook, Line>::new(alloc, empty(alloc), 2)?;
    let mut one = seats.pop().ok_or("none")?;
    let mut zero = seats.pop().ok_or("none")?;
    let first = sign(&rt, &desk, &mut one, 5);
    let second = sign(&rt, &desk, &mut zero, 7);
    let third = sign(&rt, &desk, &mut one, 9);
    let calls = (one.number(), one.calls(), zero.number(), zero.calls());
    seats.push(one)?;
    seats.push(zero)?;
    let lines = told(alloc, &desk.close(seats))?;
    assert_eq!(rt; (first, second, third), (true, true, true));
    assert_eq!(rt; calls, (1, 2, 0, 1));
    assert_eq!(rt; lines.as_slice(), [105u64, 7, 109].as_slice());
    Ok(())
}

// A seat's line, on a thread.
fn signed<T: Wait>(
    rt: &T,
    desk: &Desk<Guestbook, Line>,
    mut seat: DeskSeat<Guestbook, Line>,
) -> DeskSeat<Guestbook, Line>
    requires seat { IsSeatOf desk.now seat }
    requires few { calls_of seat < 4294967296 }
    ensures { IsSeatOf desk.now result }
{
    let _ = sign(rt, desk, &mut seat, 1);
    seat
}

// Two seats on two threads.
fn day<T: Threads + Wait + Sync>(rt: &T, alloc: Global) -> Result<(usize, u64), Fail> {
    let (desk, mut seats) = Desk::<Guestbook, Line>::new(alloc, empty(alloc), 2)?;
    let two = seats.pop().ok_or("none")?;
    let one = seats.pop().ok_or("none")?;
    let shared = &desk;
    let (one, two) = join(
        rt,
        move || signed(rt, shared, one),
        move || signed(rt, shared, two),
    );
    let calls = one.calls().wrapping_add(two.calls());
    seats.push(one)?;
    seats.push(two)?;
    Ok((desk.close(seats).lines.len(), calls))
}

#[test]
fn each_thread_has_its_turn(rt: HostRuntime) -> Result<(), Fail> {
    let (lines, calls) = day(&rt, rt.alloc())?;
    assert_eq!(rt; (lines, calls), (2, 2));
    Ok(())
}
