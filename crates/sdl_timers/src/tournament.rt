//! Which slot of a wheel is due first.

ghost use Rattle.std.specs.Prelude.{◌≡◌, None, replicate, slice_set};
ghost use Rattle.sdl_timers.specs.Tournament.{IsLeastOf};

use crate::due::{Due, earlier};
use std::marker::Model;

/// Which of 256 entrants is due first. Node 1 is the root of a tree; below the node n stand the nodes 2n and 2n + 1,
/// and each node has the earlier of these two. The entrants are the leaves, from node 256 on.
#[derive(Drop)]
pub struct Tournament {
    nodes: [Option<Due>; 512],
}

impl Model for Tournament {
    ghost use Rattle.std.specs.Prelude.{drop};
    ghost use Rattle.sdl_timers.specs.Tournament.{DueList, IsPlayed};

    ghost Value = { DueList };

    ghost view = { λ tree. drop 256 tree.nodes };

    ghost invariant = { λ tree. IsPlayed tree.nodes };
}

impl Tournament {
    /// No entrant is due.
    #[tactic(auto, using(crate::proofs::Playing::unplayed))]
    pub fn new() -> Self
        ensures { result ≡ replicate 256 None }
    {
        Tournament { nodes: [None; 512] }
    }

    /// The due of an entrant before which no other is due. None: no entrant is due.
    pub fn least(&self) -> Option<Due>
        ensures { IsLeastOf self.now result }
    {
        self.nodes[1]
    }

    /// Gives an entrant another time, and plays again on the way from it to the root.
    pub fn set(&mut self, entrant: u8, due: Option<Due>)
        ensures { self.new ≡ slice_set self.old entrant due }
    {
        let mut node = 256 + usize::from(entrant);
        self.nodes[node] = due;
        while node > 1 {
            node /= 2;
            self.nodes[node] = earlier(self.nodes[2 * node], self.nodes[2 * node + 1]);
        }
    }
}
