//! All cases, over either port.

use crate::case::{Case, check_case};
use crate::{
    conditions, continuous, creates, decisions, failures, flow, inputs, instances, outputs, tasks,
    timers,
};
use std::alloc::Global;
use std::process::Abort;
use std::sync::Wait;

fn check_all<R: Abort + Wait + Copy>(rt: R, alloc: Global, cases: &[Case<'_>]) {
    for case in cases {
        check_case(rt, alloc, case);
    }
}

#[test]
fn statements(rt: HostRuntime) {
    check_all(rt, rt.alloc(), &tasks::CASES);
    check_all(rt, rt.alloc(), &outputs::CASES);
    check_all(rt, rt.alloc(), &creates::CASES);
    check_all(rt, rt.alloc(), &decisions::CASES);
    check_all(rt, rt.alloc(), &flow::CASES);
    check_all(rt, rt.alloc(), &failures::CASES);
}

#[test]
fn states(rt: HostRuntime) {
    check_all(rt, rt.alloc(), &inputs::CASES);
    check_all(rt, rt.alloc(), &conditions::CASES);
    check_all(rt, rt.alloc(), &continuous::CASES);
    check_all(rt, rt.alloc(), &timers::CASES);
    check_all(rt, rt.alloc(), &instances::CASES);
}
