//! What a run with workers keeps for the one order of all.

ghost use Rattle.std.specs.Prelude.{◌<◌};

use crate::given::{Given, make_given};
use crate::texts::CHAIN;
use port_model::{Course, SenderInto};
use sdl_workers::{Open, Settled, run_with_course};
use std::alloc::Global;
use std::process::Abort;

/// A limit that the row doesn't reach.
const LIMIT: u64 = 1_000_000;

/// Each instance gets one token, from the only sender of its port, and takes it in its second step. It sends one to the
/// next one, which it has created by then.
#[test]
fn keeps_a_course(rt: HostRuntime) {
    let alloc = rt.alloc();
    let given = make_given(&rt, alloc, CHAIN.specification, CHAIN.script);
    let Given { system, script } = &given;
    let ran = run_with_course(&rt, alloc, system, script, 4, LIMIT, &Open);
    let Settled { report, course } = ran.expect(&rt, "a run");
    let course = course.expect(&rt, "a course");
    assert!(rt; report.records.len() == 20);
    assert!(rt; has_rows(&course, 20));
    for puts in &course.puts {
        assert!(rt; puts.as_slice() == [1].as_slice());
    }
    for drawn in &course.drawn {
        assert!(rt; drawn.as_slice() == [0, 1].as_slice());
    }
    let first = SenderInto { port: 2, number: 1 };
    assert!(rt; course.senders.get(0).is_some_and(|row| row.is_empty()));
    assert!(rt;
        course
            .senders
            .get(1)
            .is_some_and(|row| row.as_slice() == [first].as_slice())
    );
    // The first one lives by the first change of the roster. After it 19 are created and 20 end.
    let versions = all_versions(&rt, alloc, &course);
    assert!(rt; versions.len() == 39);
    for version in 2..=40 {
        assert!(rt; versions.contains(&version), "{version}");
    }
}

/// The versions that stand in all rows.
fn all_versions(rt: &impl Abort, alloc: Global, course: &Course) -> Vec<u32> {
    let mut versions = Vec::new(alloc);
    for row in &course.versions {
        versions.extend_from_slice(row).expect(rt, "memory");
    }
    versions
}

/// Whether the columns have rows for so many records.
fn has_rows(course: &Course, records: usize) -> bool
    requires { records < 1000 }
{
    course.puts.len() == records
        && course.drawn.len() == records
        && course.versions.len() == records
        && course.senders.len() == records + 1
}
