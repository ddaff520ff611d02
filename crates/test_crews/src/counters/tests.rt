use crate::counters::counting::open_two;
use crate::counters::{Counter, add_many, count_in_many, count_in_two};
use std::test::Fail;
use turn::{ArrayLock, TicketLock};

type Tickets = TicketLock<u64, Counter, 1048576>;

type Row = ArrayLock<u64, Counter, 1048576>;

#[test]
fn two_threads_count_with_tickets(rt: HostRuntime) -> Result<(), Fail> {
    let count = count_in_two::<Tickets, _>(&rt, rt.alloc(), 1000)?;
    assert_eq!(rt; count, Some(2000));
    Ok(())
}

#[test]
fn two_threads_count_with_a_row(rt: HostRuntime) -> Result<(), Fail> {
    let count = count_in_two::<Row, _>(&rt, rt.alloc(), 1000)?;
    assert_eq!(rt; count, Some(2000));
    Ok(())
}

#[test]
fn four_threads_enter_a_thousand_times_with_tickets(rt: HostRuntime) -> Result<(), Fail> {
    let count = count_in_many::<Tickets, _>(&rt, rt.alloc(), 4, 1000)?;
    assert_eq!(rt; count, Some(4000));
    Ok(())
}

#[test]
fn four_threads_enter_a_thousand_times_with_a_row(rt: HostRuntime) -> Result<(), Fail> {
    let count = count_in_many::<Row, _>(&rt, rt.alloc(), 4, 1000)?;
    assert_eq!(rt; count, Some(4000));
    Ok(())
}

#[test]
fn sixteen_chairs_on_sixteen_threads_with_tickets(rt: HostRuntime) -> Result<(), Fail> {
    let count = count_in_many::<Tickets, _>(&rt, rt.alloc(), 16, 1000)?;
    assert_eq!(rt; count, Some(16000));
    Ok(())
}

#[test]
fn sixteen_chairs_on_sixteen_threads_with_a_row(rt: HostRuntime) -> Result<(), Fail> {
    let count = count_in_many::<Row, _>(&rt, rt.alloc(), 16, 1000)?;
    assert_eq!(rt; count, Some(16000));
    Ok(())
}

#[test]
fn one_chair_alone_with_tickets(rt: HostRuntime) -> Result<(), Fail> {
    let count = count_in_many::<Tickets, _>(&rt, rt.alloc(), 1, 10)?;
    assert_eq!(rt; count, Some(10));
    Ok(())
}

#[test]
fn one_chair_alone_with_a_row(rt: HostRuntime) -> Result<(), Fail> {
    let count = count_in_many::<Row, _>(&rt, rt.alloc(), 1, 10)?;
    assert_eq!(rt; count, Some(10));
    Ok(())
}

#[test]
fn three_entries_are_all_with_tickets(rt: HostRuntime) -> Result<(), Fail> {
    let three = count_in_two::<TicketLock<u64, Counter, 3>, _>(&rt, rt.alloc(), 3)?;
    let four = count_in_two::<TicketLock<u64, Counter, 3>, _>(&rt, rt.alloc(), 4)?;
    assert_eq!(rt; three, Some(6));
    assert_eq!(rt; four, None);
    Ok(())
}

#[test]
fn three_entries_are_all_with_a_row(rt: HostRuntime) -> Result<(), Fail> {
    let three = count_in_two::<ArrayLock<u64, Counter, 3>, _>(&rt, rt.alloc(), 3)?;
    let four = count_in_two::<ArrayLock<u64, Counter, 3>, _>(&rt, rt.alloc(), 4)?;
    assert_eq!(rt; three, Some(6));
    assert_eq!(rt; four, None);
    Ok(())
}

// A chair that finds the lock free looks awake: it doesn't count as one that sleeps or is about to.
#[test]
fn a_free_lock_puts_nobody_to_sleep_with_tickets(rt: HostRuntime) -> Result<(), Fail> {
    let (turn, mut chair, _other) = open_two::<Tickets>(rt.alloc())?;
    assert!(rt; add_many(&rt, &turn, &mut chair, 1000).is_ok());
    assert_eq!(rt; turn.sleeps(), 0);
    Ok(())
}

#[test]
fn a_free_lock_puts_nobody_to_sleep_with_a_row(rt: HostRuntime) -> Result<(), Fail> {
    let (turn, mut chair, _other) = open_two::<Row>(rt.alloc())?;
    assert!(rt; add_many(&rt, &turn, &mut chair, 1000).is_ok());
    assert_eq!(rt; turn.sleeps(), 0);
    Ok(())
}
