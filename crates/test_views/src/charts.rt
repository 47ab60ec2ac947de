//! What charts show.

use crate::crowd::CROWD;
use crate::relay::{RELAY, SCRIPT};
use crate::runs::{all, chart_of, run_of};
use port_model::Ticks;
use std::alloc::{AllocError, Global};
use view_chart::{Chart, ColumnId, Ending, Row, Selection, Sign, Spot, Tail, Tip, Wanted};

fn spot(column: u32, row: u32) -> Spot {
    Spot {
        column: ColumnId(column),
        row: Row(row),
    }
}

/// Whether these are the ends of the arrows of a chart.
fn has_ends(chart: &Chart, ends: &[(Tail, Tip)]) -> bool {
    chart.arrows.len() == ends.len()
        && chart.arrows.iter().zip(ends.iter()).all(|(arrow, (tail, tip))| arrow.tail == *tail
            && arrow.tip == *tip)
}

#[test]
fn shows_what_is_gone_what_waits_and_who_took_what(rt: HostRuntime) {
    let run = run_of(&rt, rt.alloc(), RELAY, SCRIPT, 1_000_000);
    let chart = chart_of(&rt, rt.alloc(), &run, &all(rt.alloc()));
    // Rows of 0: its time, a create in two rows, the first note, the timer, two states, the note is taken, an answer in
    // the row of its output, a stop. Of 2: its time, the timer, what is gone. Of 3: its time, go, a create in two rows,
    // what waits, no create, what goes to nobody, a state.
    let ends = [
        (Tail::At(spot(1, 3)), Tip::At(spot(2, 7))),
        (Tail::At(spot(2, 8)), Tip::At(spot(1, 8))),
        (Tail::At(spot(1, 12)), Tip::Gone(Some(ColumnId(2)))),
        (Tail::At(spot(0, 14)), Tip::At(spot(1, 14))),
        (Tail::At(spot(1, 17)), Tip::Waits(Some(ColumnId(3)))),
        (Tail::At(spot(1, 19)), Tip::Gone(None)),
    ];
    assert!(rt; has_ends(&chart, &ends));
    assert!(rt; chart.columns.len() == 5);
    assert!(rt; chart.columns[1].ending == Ending::Rest);
    assert!(rt; chart.columns[2].ending == Ending::Stop(Row(9)));
    assert!(rt; chart.columns[2].created == Some(Row(1)));
    assert!(rt; chart.columns[3].created == Some(Row(15)));
    assert!(rt; chart.rows == 21);
    assert!(rt; chart.end.as_str() == "end 3 whole");
}

/// The keepers until the time 2.
fn early_keepers(alloc: Global) -> Result<Selection, AllocError> {
    let mut name = String::new(alloc);
    name.push_str("Keeper")?;
    let mut only = Vec::new(alloc);
    only.push(Wanted::Process(name))?;
    Ok(Selection {
        only,
        from: None,
        until: Some(Ticks::new(2)),
    })
}

#[test]
fn shows_what_is_wanted_alone(rt: HostRuntime) {
    let run = run_of(&rt, rt.alloc(), RELAY, SCRIPT, 1_000_000);
    let selection = early_keepers(rt.alloc()).expect(&rt, "a selection");
    let chart = chart_of(&rt, rt.alloc(), &run, &selection);
    // the environment, #2, and the others, from whom the note comes, and to whom the answer goes
    let ends = [
        (Tail::At(spot(2, 2)), Tip::At(spot(1, 2))),
        (Tail::At(spot(1, 3)), Tip::At(spot(2, 3))),
    ];
    assert!(rt; has_ends(&chart, &ends));
    assert!(rt; chart.columns.len() == 3);
    assert!(rt; !chart.columns[0].used);
    assert!(rt; chart.columns[2].used);
    assert!(rt; chart.columns[1].ending == Ending::Stop(Row(4)));
    assert!(rt; chart.marks.len() == 2);
    assert!(rt; chart.marks[0].sign == Sign::State);
    assert!(rt; chart.marks[1].sign == Sign::Stop);
}

#[test]
fn says_how_much_more_there_is(rt: HostRuntime) {
    // 102 starts, and 1,903 takes
    let run = run_of(&rt, rt.alloc(), CROWD, "", 2_005);
    let chart = chart_of(&rt, rt.alloc(), &run, &all(rt.alloc()));
    // the environment, 100 of the instances, and the others
    assert!(rt; chart.columns.len() == 102);
    // an output of the start, and of 1,900 takes
    assert!(rt; chart.arrows.len() == 1_901);
    assert!(rt; chart.columns[1].ending == Ending::Open);
    assert!(rt; chart.columns[100].ending == Ending::Cut);
    let end =
        "end 0 cut; not drawn: 3 transitions and 2 instances more; --only, --from and --until choose";
    assert!(rt; chart.end.as_str() == end);
}
