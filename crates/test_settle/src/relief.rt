//! What a relief moves, which no clause says: which tickets are under the lock of a local queue.

use std::alloc::Global;
use std::collections::VecDeque;
use std::process::Abort;
use std::sync::Wait;
use threads_instance::{Injector, LocalQueue, Slots, Turn, put};

/// Whose tickets one queue has.
static NUMBERS: [u32; 3] = [5, 7, 6];

/// A local queue of the tickets of `NUMBERS`, who are in their slots, and to which its worker has come once.
fn local_queue<R: Abort + Wait>(rt: &R, alloc: Global, slots: &Slots<u32>) -> LocalQueue {
    let local = LocalQueue::new(alloc);
    let mut hand = VecDeque::new(alloc);
    for number in &NUMBERS {
        let slot = slots.of(*number).expect(rt, "a slot");
        let ticket = slot.enter(rt, *number).expect(rt, "a ticket");
        if let Err(refused) = put(&mut hand, ticket) {
            slots.take_back(refused);
        }
    }
    local.put_all(rt, &mut hand).expect(rt, "memory");
    hand.destroy_empty();
    assert!(rt; local.len() == NUMBERS.len(), "what is put is there");
    local
}

/// The number of who is first in a local queue, if somebody is. Its slot has its ticket back then.
fn take_first<R: Abort + Wait>(
    rt: &R,
    alloc: Global,
    slots: &mut Slots<u32>,
    local: &LocalQueue,
) -> Option<u32> {
    let mut hand = VecDeque::new(alloc);
    let first = local.next(rt, &mut hand).expect(rt, "memory");
    let number = match first {
        Some(ticket) => {
            let number = ticket.number();
            if let Err(refused) = put(&mut hand, ticket) {
                slots.take_back(refused);
            }
            Some(number)
        }
        None => None,
    };
    slots.take_back_all(hand);
    number
}

/// The tickets of a queue are in the injector, in their order, and in the local queue of another worker then.
fn expect_moved<R: Abort + Wait>(
    rt: &R,
    alloc: Global,
    slots: &mut Slots<u32>,
    injector: &mut Injector,
) {
    assert!(rt;
        injector.queued() == NUMBERS.len(),
        "all are in the injector"
    );
    let other = LocalQueue::new(alloc);
    let turn = other.turn(rt, injector, 1).expect(rt, "a turn");
    assert!(rt; turn == Turn::Work { wake: None });
    for number in &NUMBERS {
        let first = take_first(rt, alloc, slots, &other);
        assert!(rt; first == Some(*number), "in their order");
    }
    assert!(rt; take_first(rt, alloc, slots, &other).is_none());
    slots.take_back_all(other.into_queue());
}

/// All tickets of a worker that hasn't come go into the injector, and none is left.
#[test]
fn relief_moves_all(rt: HostRuntime) {
    let alloc = rt.alloc();
    let mut slots = Slots::new(alloc).expect(&rt, "memory");
    let local = local_queue(&rt, alloc, &slots);
    let mut injector = Injector::new(alloc, 1).expect(&rt, "memory");
    let visits = local.visits();
    assert!(&rt; local.relieve(&mut injector, visits).expect(&rt, "memory"));
    assert!(&rt; local.is_empty() && local.visits() == visits);
    assert!(&rt;
        !local.relieve(&mut injector, visits).expect(&rt, "memory"),
        "nothing is left"
    );
    expect_moved(&rt, alloc, &mut slots, &mut injector);
    slots.take_back_all(local.into_queue());
    slots.take_back_all(injector.into_queue());
}

/// A worker that has come since keeps its tickets.
#[test]
fn relief_leaves_who_comes(rt: HostRuntime) {
    let alloc = rt.alloc();
    let mut slots = Slots::new(alloc).expect(&rt, "memory");
    let local = local_queue(&rt, alloc, &slots);
    let mut injector = Injector::new(alloc, 1).expect(&rt, "memory");
    let visits = local.visits();
    assert!(&rt; take_first(&rt, alloc, &mut slots, &local) == Some(5));
    assert!(&rt; !local.relieve(&mut injector, visits).expect(&rt, "memory"));
    assert!(&rt; local.len() == 2 && injector.queued() == 0);
    slots.take_back_all(local.into_queue());
    slots.take_back_all(injector.into_queue());
}
