//! Instances with parameters.

use crate::case::{CASE, Case};
use port_model::Value;

pub static CASES: [Case<'static>; 1] = [Case {
    name: "instances: parameters have the values that there are",
    process: "fpar n Integer, f Boolean, k Natural; dcl m Integer := 4; start; task m := m + n; output pair(m, f);
            task m := k; nextstate s; state s;",
    values: &[Value::Int(5), Value::Bool(true)],
    wanted: "
0 start
  task m := 9
  output pair(9,true) to env
  failed Undefined
",
    done: Some("pair(9,true) from #1 to Env\n"),
    ..CASE
}];
