// Searches of places in a ring: what is listed, and under which logs. Those of boards are shown by the program explore_bench
// (`tests/searches`).

use crate::wheel::Wheel;
use explore::{Findings, Reason, Status, explore_alone};
use statebook::Limits;
use std::alloc::Global;
use std::test::Fail;

fn found(alloc: Global, space: &Wheel, depart: u32) -> Result<Findings<u32>, Fail> {
    let limits = Limits::new(depart, 1_000, 1_000_000).ok_or("limits")?;
    Ok(explore_alone(alloc, space, &limits)?)
}

fn wheel(back: u32, door: bool) -> Wheel {
    Wheel {
        places: 5,
        back,
        door,
    }
}

// The door is met at each turn, and is left by under one departure. A loop without a door that comes back to the opening state
// is gone through once; one that doesn't has no station, so it goes on up to the limit of steps.
#[test]
fn ends_of_spaces_that_loop(rt: HostRuntime) -> Result<(), Fail> {
    let rows = [
        (0, true, 0, Status::Exhausted, 0),
        (0, true, 1, Status::Exhausted, 1),
        (0, false, 4, Status::Exhausted, 0),
        (2, false, 4, Status::Cut(Reason::Steps), 0),
    ];
    for (back, door, depart, status, marks) in rows {
        let findings = found(rt.alloc(), &wheel(back, door), depart)?;
        assert!(rt; findings.status == status, "back to {back}");
        assert!(rt; findings.marks.len() == marks, "back to {back}");
    }
    Ok(())
}

#[test]
fn log_to_the_end_of_a_loop(rt: HostRuntime) -> Result<(), Fail> {
    let findings = found(rt.alloc(), &wheel(0, true), 1)?;
    let log = findings.marks.get(&5).ok_or("no mark")?;
    assert!(rt; log.members().len() == 1);
    assert!(rt; log.members()[0].0 % 5 == 0);
    assert!(rt; log.members()[0].1 == 1);
    Ok(())
}
