//! Which fuses have no effect any more.

use crate::instances::Instances;
use port_model::Fuse;
use sdl_timers::SpentFuses;

impl<'s> SpentFuses for Instances<'s> {
    ghost use Rattle.serial_run.specs.Thinned.{is_spent_in};

    ghost spent = { λ a. is_spent_in a.instances.items };

    fn is_spent(&self, fuse: &Fuse) -> bool {
        match self.place_of(fuse.pid()) {
            Some(place) => self.instances[place].is_spent(fuse),
            None => false,
        }
    }
}
