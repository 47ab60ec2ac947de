//! The environment of one step in a serial run: the clock, who lives of each process, and what the step does to others
//! (Z.101: agent instance set; Z.102: create, output, set).
//!
//! `SerialWorld` is the `World` of one step, over the `Living` of the run, which also says which number an instance gets
//! that is made. What the step does to others is collected, and done when the step is over.

mod effect;
mod effects;
mod living;
mod step_world;

pub use effect::Effect;
pub use effects::Effects;
pub use living::Living;
pub use step_world::SerialWorld;
