//! What signals and timers carry and how they are told apart: values, instances, names, ticks, and timer keys (Z.101,
//! Z.102).

mod arm;
mod item;
mod pid;
mod ticks;
mod timer_key;
mod value;
mod values;

pub use arm::Arm;
pub use item::{Item, SignalId};
pub use pid::Pid;
pub use ticks::Ticks;
pub use timer_key::TimerKey;
pub use value::Value;
pub use values::Values;
