//! Numbers of instances, drawn in one thread and in several.

ghost use Rattle.std.specs.Prelude.{◌≡◌};
ghost use Rattle.std.specs.Thread.{IsSync};

use std::alloc::Global;
use std::process::Abort;
use std::thread;
use std::thread::Threads;
use threads_ports::instances::birth::table;
use threads_ports::{Full, Seat, Table};

/// A seat that was in a thread, and the numbers that it drew there, in their order.
#[derive(Drop)]
struct Hand {
    seat: Seat,
    numbers: Vec<u32>,
}

fn another(rt: &impl Abort, alloc: Global, table: &Table, seat: &mut Seat) -> Hand
    requires { seat.old.table ≡ table.now.id }
    ensures table { seat.new.table ≡ seat.old.table }
    ensures hand { result.seat.table ≡ table.now.id }
{
    Hand {
        seat: seat.again(table).expect(rt, "a seat"),
        numbers: Vec::with_capacity(alloc, 1000).expect(rt, "memory"),
    }
}

/// Draws so many times.
fn draw_times(table: &Table, mut hand: Hand, times: u32) -> Hand
    requires { hand.seat.table ≡ table.now.id }
    ensures { result.seat.table ≡ table.now.id }
{
    for _ in 0..times {
        if let Ok(number) = table.draw(&mut hand.seat) {
            let _ = hand.numbers.push(number);
            thread::yield_now();
        }
    }
    hand
}

/// The same by two threads.
fn draw_by_two<R: Threads + Sync>(
    rt: &R,
    table: &Table,
    first: Hand,
    second: Hand,
    times: u32,
) -> (Hand, Hand)
    requires { (first.seat.table ≡ table.now.id) × (second.seat.table ≡ table.now.id) }
    ensures { (result.0.seat.table ≡ table.now.id) × (result.1.seat.table ≡ table.now.id) }
{
    thread::join(
        rt,
        move || -> Hand
            requires { first.seat.table ≡ table.now.id }
            ensures { result.seat.table ≡ table.entry.now.id }
        { draw_times(table, first, times) },
        move || -> Hand
            requires { second.seat.table ≡ table.now.id }
            ensures { result.seat.table ≡ table.entry.now.id }
        { draw_times(table, second, times) },
    )
}

/// The same by four threads.
fn draw_by_four<R: Threads + Sync>(
    rt: &R,
    table: &Table,
    first: (Hand, Hand),
    second: (Hand, Hand),
    times: u32,
) -> ((Hand, Hand), (Hand, Hand))
    requires { (first.0.seat.table ≡ table.now.id) × (first.1.seat.table ≡ table.now.id)
        × (second.0.seat.table ≡ table.now.id) × (second.1.seat.table ≡ table.now.id) }
    ensures { (result.0.0.seat.table ≡ table.now.id) × (result.0.1.seat.table ≡ table.now.id)
        × (result.1.0.seat.table ≡ table.now.id) × (result.1.1.seat.table ≡ table.now.id) }
{
    thread::join(
        rt,
        move || -> (Hand, Hand)
            requires { IsSync R.row × (first.0.seat.table ≡ table.now.id) × (first.1.seat.table ≡ table.now.id) }
            ensures { (result.0.seat.table ≡ table.entry.now.id) × (result.1.seat.table ≡ table.entry.now.id) }
        { draw_by_two(rt, table, first.0, first.1, times) },
        move || -> (Hand, Hand)
            requires { IsSync R.row × (second.0.seat.table ≡ table.now.id) × (second.1.seat.table ≡ table.now.id) }
            ensures { (result.0.seat.table ≡ table.entry.now.id) × (result.1.seat.table ≡ table.entry.now.id) }
        { draw_by_two(rt, table, second.0, second.1, times) },
    )
}

/// Draws once more, and takes the seat and its numbers in.
fn take_in(
    rt: &impl Abort,
    table: &Table,
    seat: &mut Seat,
    hand: Hand,
    numbers: &mut Vec<u32>,
) -> Result<u32, Full>
    requires { (seat.old.table ≡ table.now.id) × (hand.seat.table ≡ table.now.id) }
    ensures { seat.new.table ≡ seat.old.table }
{
    let Hand {
        seat: mut other,
        numbers: more,
    } = hand;
    let drawn = table.draw(&mut other);
    seat.gather(table, other);
    numbers.extend_from_slice(&more).expect(rt, "memory");
    drawn
}

/// The same of two hands.
fn take_in_two(
    rt: &impl Abort,
    table: &Table,
    seat: &mut Seat,
    hands: (Hand, Hand),
    numbers: &mut Vec<u32>,
) -> (Result<u32, Full>, Result<u32, Full>)
    requires seat { seat.old.table ≡ table.now.id }
    requires hands { (hands.0.seat.table ≡ table.now.id) × (hands.1.seat.table ≡ table.now.id) }
    ensures { seat.new.table ≡ seat.old.table }
{
    let (first, second) = hands;
    let one = take_in(rt, table, seat, first, numbers);
    let two = take_in(rt, table, seat, second, numbers);
    (one, two)
}

/// How many seats the seat splits off when it is asked so many times. Each of them is gathered at once.
fn count_splits(table: &Table, seat: &mut Seat, times: u32) -> u32
    requires { seat.old.table ≡ table.now.id }
    ensures { seat.new.table ≡ seat.old.table }
{
    let mut made = 0;
    for _ in 0..times {
        if let Some(other) = seat.again(table) {
            seat.gather(table, other);
            made += 1;
        }
    }
    made
}

#[test]
fn draws_one_two_three(rt: HostRuntime) {
    let alloc = rt.alloc();
    let (table, mut seat) = table(alloc).expect(&rt, "memory");
    let first = another(&rt, alloc, &table, &mut seat);
    let second = another(&rt, alloc, &table, &mut seat);
    assert!(rt; table.draw(&mut seat) == Ok(1));
    let hands = draw_by_two(&rt, &table, first, second, 1);
    let mut numbers = Vec::new(alloc);
    let drawn = take_in_two(&rt, &table, &mut seat, hands, &mut numbers);
    assert!(rt; drawn == (Ok(4), Ok(5)));
    numbers.sort().expect(&rt, "memory");
    assert!(rt; numbers.as_slice() == [2, 3].as_slice());
}

/// Four hands that four threads have filled with all the numbers.
fn full_hands<R: Threads + Sync + Abort>(
    rt: &R,
    alloc: Global,
    table: &Table,
    seat: &mut Seat,
) -> ((Hand, Hand), (Hand, Hand))
    requires { seat.old.table ≡ table.now.id }
    ensures seat { seat.new.table ≡ seat.old.table }
    ensures first { (result.0.0.seat.table ≡ table.now.id) × (result.0.1.seat.table ≡ table.now.id) }
    ensures second { (result.1.0.seat.table ≡ table.now.id) × (result.1.1.seat.table ≡ table.now.id) }
{
    let a = another(rt, alloc, table, seat);
    let b = another(rt, alloc, table, seat);
    let c = another(rt, alloc, table, seat);
    let d = another(rt, alloc, table, seat);
    draw_by_four(rt, table, (a, b), (c, d), 1001)
}

#[test]
fn draws_a_thousand_once(rt: HostRuntime) {
    let (table, mut seat) = table(rt.alloc()).expect(&rt, "memory");
    let (first, second) = full_hands(&rt, rt.alloc(), &table, &mut seat);
    let mut numbers = Vec::new(rt.alloc());
    let full = (Err(Full), Err(Full));
    assert!(rt; take_in_two(&rt, &table, &mut seat, first, &mut numbers) == full);
    assert!(rt; take_in_two(&rt, &table, &mut seat, second, &mut numbers) == full);
    assert!(rt; table.draw(&mut seat) == Err(Full));
    numbers.sort().expect(&rt, "memory");
    assert!(rt; numbers.iter().copied().eq(1..=1000));
}

#[test]
fn splits_sixty_three_times(rt: HostRuntime) {
    let (table, mut seat) = table(rt.alloc()).expect(&rt, "memory");
    let mut other = seat.again(&table).expect(&rt, "a seat");
    assert!(rt; count_splits(&table, &mut other, 1) == 0);
    assert!(rt; count_splits(&table, &mut seat, 62) == 62);
    assert!(rt; count_splits(&table, &mut seat, 1) == 0);
    seat.gather(&table, other);
    assert!(rt; count_splits(&table, &mut seat, 1) == 0);
}

#[test]
fn says_that_it_is_full(rt: HostRuntime) {
    let text = format!(in rt.alloc(); "{Full}").expect(&rt, "memory");
    assert!(rt; text.as_str() == "all numbers are drawn");
}
