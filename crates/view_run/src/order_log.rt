//! What is kept of a run, so that its order can be told.

use port_model::Course;

/// What was kept of a run, so that its order can be told.
#[derive(Drop)]
pub enum OrderLog {
    /// Of a run on one thread: whose events it told, one after the other. 0 stands for a line of the script.
    Tellers(Vec<u32>),
    /// Of a run with workers: its course.
    Course(Course),
}
