//! Steps of instances.

ghost use Rattle.std.specs.Prelude.{◌≡◌, IfOk};
ghost use Rattle.run_order.specs.Kept.{IsFixed, IsNoStep, LeadsBy};
ghost use Rattle.run_order.specs.Noted.{IsNotedNoMore};

use crate::answers::Answers;
use crate::member::Move;
use crate::replay::Replay;
use sdl_interp::Position;
use std::alloc::{AllocError, Global};

impl<'s> Replay<'s> {
    /// One step of the instance with this number, if it lives and has done all that its latest step does outside, and
    /// nothing is due. If it has nothing to do it is noted no more. For lack of memory nothing is known of the run any
    /// more.
    pub fn make_step(
        &mut self,
        alloc: Global,
        number: u32,
        answers: &mut Answers<'_>,
    ) -> Result<Move, AllocError>
        ensures leads { IfOk result (λ made. LeadsBy made self.old.order number self.new.order) }
        ensures none { IfOk result (λ made. made ≡ Move.Nothing → IsNoStep self.old.order number) }
        ensures noted { IfOk result (λ made. made ≡ Move.Nothing → IsNotedNoMore self.old number self.new) }
        ensures fixed { IsFixed self.old.order self.new.order }
    {
        let Some(place) = self.place_of(number) else {
            return Ok(Move::Nothing);
        };
        if !self.is_nothing_due() {
            return Ok(Move::Nothing);
        }
        if !self.members[place].pending.is_empty() {
            return Ok(Move::Nothing);
        }
        if let Position::Ended = self.members[place].instance.position() {
            self.agenda.ready.rest(number);
            return Ok(Move::Nothing);
        }
        self.agenda.ready.wake(number)?;
        let made = self.members[place].step(
            alloc,
            self.system,
            self.agenda.clock,
            answers,
            &mut self.effects,
        )?;
        if let Move::Nothing = made {
            self.agenda.ready.rest(number);
            return Ok(Move::Nothing);
        }
        Ok(made)
    }
}
