//! The text of values.

use port_model::{Pid, Value, Values};
use std::alloc::Global;
use std::process::Abort;

fn text(rt: &impl Abort, alloc: Global, values: &Values) -> String {
    format!(in alloc; "{values}").expect(rt, "memory")
}

#[test]
fn shows_values_in_parentheses(rt: HostRuntime) {
    let alloc = rt.alloc();
    assert!(rt; text(&rt, alloc, &Values::none(alloc)).as_str() == "");
    let list = [
        Value::Int(i64::MIN),
        Value::Bool(true),
        Value::Pid(Pid::Null),
        Value::Pid(Pid::Of(7)),
        Value::Time(20),
    ];
    let values = Values::from_slice(alloc, &list).expect(&rt, "memory");
    let copy = values.copied().expect(&rt, "memory");
    let shown = text(&rt, alloc, &copy);
    assert!(rt; shown.as_str() == "(-9223372036854775808,true,null,#7,20)");
}

#[test]
fn pushes_behind_the_others(rt: HostRuntime) {
    let alloc = rt.alloc();
    let mut values = Values::none(alloc);
    for number in 1..=3 {
        values.push(Value::Int(number)).expect(&rt, "memory");
    }
    assert!(rt; text(&rt, alloc, &values).as_str() == "(1,2,3)");
}
