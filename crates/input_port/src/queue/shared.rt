//! The part of a port that all threads share.

ghost use Rattle.std.specs.Prelude.{◌≡◌};

use crate::queue::rule::Queue;

/// The input port of one instance, which all threads share by `&`.
pub struct Port {
    pub(crate) queue: Queue,
    pid: u32,
}

impl Port {
    /// The port of the instance `pid`, over this queue.
    pub fn new(queue: Queue, pid: u32) -> Self
        ensures queue { result.queue ≡ queue }
        ensures pid { result.pid ≡ pid }
    {
        Port { queue, pid }
    }

    /// The number of the instance.
    pub fn pid(&self) -> u32
        ensures { result ≡ self.now.pid }
    {
        self.pid
    }
}

impl Drop for Port {
    fn drop(self) {
        let Port { queue, pid: _ } = self;
        queue.destroy();
    }
}
