// The book of an exploration.

use sched_core::{Log, Square};
use statebook::{Done, Entry, Met, PlainBook};
use std::alloc::Global;
use std::test::Fail;

fn entry_of(alloc: Global, budget: u32) -> Entry<Square> {
    Entry {
        state: Square { x: 3, y: 1 },
        budget,
        log: Log::new(alloc),
        steps: 0,
    }
}

#[test]
fn one_state_with_three_budgets(rt: HostRuntime) -> Result<(), Fail> {
    let mut book = PlainBook::new(rt.alloc());
    assert!(rt; book.meet(entry_of(rt.alloc(), 0)).ok() == Some(Met::New(0)));
    assert!(rt; book.meet(entry_of(rt.alloc(), 2)).ok() == Some(Met::New(1)));
    assert!(rt; book.meet(entry_of(rt.alloc(), 1)).ok() == Some(Met::Known(1)));
    assert_eq!(rt; book.len(), 2);
    assert_eq!(rt; book.read(1).budget, 2);
    assert!(rt; book.at(1) == Some(1));
    assert!(rt; book.at(2).is_none());
    Ok(())
}

#[test]
fn finished_root_closes(rt: HostRuntime) -> Result<(), Fail> {
    let mut book = PlainBook::new(rt.alloc());
    assert!(rt; book.meet(entry_of(rt.alloc(), 0)).is_ok());
    assert_eq!(rt; book.len(), 1);
    assert!(rt; !book.closed(0, &[0]));
    let done = Done {
        entry: 0,
        next: Vec::new(rt.alloc()),
    };
    assert!(rt; book.finish(done).is_ok());
    assert!(rt; book.closed(0, &[0]));
    assert!(rt; !book.closed(0, &[]));
    assert_eq!(rt; book.len(), 1);
    let again = Done {
        entry: 0,
        next: Vec::new(rt.alloc()),
    };
    assert!(rt; book.finish(again).is_err());
    Ok(())
}
